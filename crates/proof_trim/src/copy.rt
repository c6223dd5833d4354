//! Copies of lines with other numbers in their hints.

ghost use Rattle.std.specs.Prelude.{◌≡◌, ◌+◌, ◌-◌, ◌<◌, ◌^◌, [], ◌∷◌, ◌++◌, if◌then◌else◌, All, IfOk, OnOk, length, map, slice_index};
ghost use Rattle.proof_trim.specs.Needed.{LooksBack, NamesEarlier, NoneForward};
ghost use Rattle.proof_log.specs.Marks.{marked};
ghost use Rattle.proof_trim.specs.Trimmed.{hint_renumbered, moved, place_of, renumbered};

use axiom_rules::Literal;
use mt_model::{Step, Steps};
use proof_log::{Hint, Hints, Line, Lines, Lits};
use std::alloc::{AllocError, Global};

fn steps_copy(alloc: Global, steps: &[Step]) -> Result<Steps, AllocError>
    ensures { IfOk result (λ copy. copy ≡ steps.now) }
{
    Ok(Steps::from_vec(steps.to_vec(alloc)?))
}

fn literals_copy(alloc: Global, literals: &[Literal]) -> Result<Lits, AllocError>
    ensures { IfOk result (λ copy. copy ≡ literals.now) }
{
    Ok(Lits::from_vec(literals.to_vec(alloc)?))
}

// The numbers of `places` are the new ones of lines 1, 2 and so on.
fn hint_copy(hint: Hint, places: &[u32]) -> Hint
    requires { NamesEarlier (length places.now + 1) hint }
    ensures { result ≡ hint_renumbered (λ n. slice_index places.now (n - 1)) hint }
{
    match hint {
        Hint::Line(named) => Hint::Line(places[named as usize - 1]),
        Hint::Rule(rule) => Hint::Rule(rule),
    }
}

// Gives hints the new numbers of the lines that they name, which `places` has for lines 1, 2 and so on.
fn renumber(hints: &mut [Hint], places: &[u32])
    requires { All (NamesEarlier (length places.now + 1)) hints.old }
    ensures { hints.new ≡ map (hint_renumbered (λ n. slice_index places.now (n - 1))) hints.old }
{
    for hint in hints.iter_mut() {
        *hint = hint_copy(*hint, places);
    }
}

fn hints_copy(alloc: Global, hints: &[Hint], places: &[u32]) -> Result<Hints, AllocError>
    requires { All (NamesEarlier (length places.now + 1)) hints.now }
    ensures { IfOk result (λ copy. copy ≡ map (hint_renumbered (λ n. slice_index places.now (n - 1))) hints.now) }
{
    let mut copy = hints.to_vec(alloc)?;
    renumber(&mut copy, places);
    Ok(Hints::from_vec(copy))
}

fn line_copy(alloc: Global, line: &Line, places: &[u32]) -> Result<Line, AllocError>
    requires { LooksBack (length places.now + 1) line.now }
    ensures { IfOk result (λ copy. copy ≡ moved places.now line.now) }
{
    match line {
        Line::Cycle(steps) => Ok(Line::Cycle(steps_copy(alloc, steps.as_slice())?)),
        Line::Learn { lits, hints } => {
            let lits = literals_copy(alloc, lits.as_slice())?;
            let hints = hints_copy(alloc, hints.as_slice(), places)?;
            Ok(Line::Learn { lits, hints })
        }
    }
}

// Copies a line after those that are left, if it is marked.
fn copy_marked(
    alloc: Global,
    left: &mut Lines,
    mark: bool,
    line: &Line,
    places: &[u32],
) -> Result<(), AllocError>
    requires { LooksBack (length places.now + 1) line.now }
    ensures { OnOk result (left.new ≡ (if mark then left.old ++ moved places.now line.now ∷ [] else left.old)) }
{
    if mark {
        left.push(line_copy(alloc, line, places)?)?;
    }
    Ok(())
}

/// The lines that are marked, where a hint that names a line has the place of that line among these.
pub fn marked_lines(alloc: Global, lines: &[Line], marks: &[bool]) -> Result<Lines, AllocError>
    requires few { length lines.now < 2 ^ 32 }
    requires count { length marks.now ≡ length lines.now }
    requires back { NoneForward lines.now }
    ensures { IfOk result (λ left. left ≡ map (renumbered (place_of marks.now lines.now)) (marked marks.now lines.now)) }
{
    let mut left = Lines::new(alloc);
    let mut places = Vec::new(alloc);
    for (i, line) in lines.iter().enumerate() {
        copy_marked(alloc, &mut left, marks[i], line, &places)?;
        places.push(left.len() as u32)?;
    }
    Ok(left)
}
