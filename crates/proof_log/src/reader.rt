//! Lines from their text.

ghost use Rattle.std.specs.Prelude.{◌≡◌, ◌↔◌, ◌<◌, ◌^◌, [], length, None, Some, IfOk, IsTrue, MatchOption};
ghost use Rattle.std.specs.List.{slice_split};
ghost use Rattle.memchr.specs.Find.{is_byte};
ghost use Rattle.proof_log.specs.Fronts.{Finds, FindsNone, hints_in, literals_in, steps_in};
ghost use Rattle.proof_log.specs.LinesOf.{Answers, HasAtomsOnce, IsLine};
ghost use Rattle.proof_log.specs.LinesText.{space};
ghost use Rattle.proof_log.specs.Reading.{counted_in, learn_in, line_in, made, step_in, whole, words_after};

use crate::atoms::has_atoms_once;
use crate::fault::LineFault;
use crate::item::{next_hint, next_literal, next_number, next_step};
use crate::line::{Hints, Line, Lines, Lits};
use crate::word::cut_word;
use memchr::memchr;
use mt_model::Steps;
use std::alloc::{AllocError, Global};

// Reads a number and so many steps. The answer is what follows them, where the words begin so.
fn read_steps<'a>(steps: &mut Steps, words: &'a [u8]) -> Result<Option<&'a [u8]>, AllocError>
    requires { steps.old ≡ [] }
    ensures { IfOk result (λ o. MatchOption o (FindsNone steps_in words.now) (λ rest. Finds steps_in words.now steps.new rest.now)) }
{
    let Some((count, first)) = next_number(words) else {
        return Ok(None);
    };
    let mut rest = first;
    while steps.len() < count as usize {
        let Some((step, after)) = next_step(rest) else {
            return Ok(None);
        };
        steps.push(step)?;
        rest = after;
    }
    Ok(Some(rest))
}

// Reads a number and so many literals.
fn read_literals<'a>(lits: &mut Lits, words: &'a [u8]) -> Result<Option<&'a [u8]>, AllocError>
    requires { lits.old ≡ [] }
    ensures { IfOk result (λ o. MatchOption o (FindsNone literals_in words.now) (λ rest. Finds literals_in words.now lits.new rest.now)) }
{
    let Some((count, first)) = next_number(words) else {
        return Ok(None);
    };
    let mut rest = first;
    while lits.len() < count as usize {
        let Some((literal, after)) = next_literal(rest) else {
            return Ok(None);
        };
        lits.push(literal)?;
        rest = after;
    }
    Ok(Some(rest))
}

// Reads a number and so many hints.
fn read_hints<'a>(hints: &mut Hints, words: &'a [u8]) -> Result<Option<&'a [u8]>, AllocError>
    requires { hints.old ≡ [] }
    ensures { IfOk result (λ o. MatchOption o (FindsNone hints_in words.now) (λ rest. Finds hints_in words.now hints.new rest.now)) }
{
    let Some((count, first)) = next_number(words) else {
        return Ok(None);
    };
    let mut rest = first;
    while hints.len() < count as usize {
        let Some((hint, after)) = next_hint(rest) else {
            return Ok(None);
        };
        hints.push(hint)?;
        rest = after;
    }
    Ok(Some(rest))
}

// The Cycle line of the words after `cycle`.
fn cycle(alloc: Global, words: &[u8]) -> Result<Option<Line>, AllocError>
    ensures { IfOk result (λ o. o ≡ whole (made Line.Cycle (counted_in step_in (words_after words.now)))) }
{
    let mut steps = Steps::new(alloc);
    let Some(rest) = read_steps(&mut steps, words)? else {
        return Ok(None);
    };
    if rest.is_empty() {
        Ok(Some(Line::Cycle(steps)))
    } else {
        Ok(None)
    }
}

// The Learn line of the words after `learn`.
fn learn(alloc: Global, words: &[u8]) -> Result<Option<Line>, AllocError>
    ensures { IfOk result (λ o. o ≡ whole (learn_in (words_after words.now))) }
{
    let mut lits = Lits::new(alloc);
    let Some(after) = read_literals(&mut lits, words)? else {
        return Ok(None);
    };
    let mut hints = Hints::new(alloc);
    let Some(rest) = read_hints(&mut hints, after)? else {
        return Ok(None);
    };
    if rest.is_empty() {
        Ok(Some(Line::Learn { lits, hints }))
    } else {
        Ok(None)
    }
}

// The line of some words, of which an atom may stand twice.
fn line_of_words(alloc: Global, words: &[u8]) -> Result<Option<Line>, AllocError>
    ensures { IfOk result (λ o. o ≡ line_in (slice_split (is_byte space) words.now)) }
{
    let (word, rest) = cut_word(words);
    if word == b"cycle".as_slice() {
        cycle(alloc, rest)
    } else if word == b"learn".as_slice() {
        learn(alloc, rest)
    } else {
        Ok(None)
    }
}

fn has_each_atom_once(alloc: Global, line: &Line) -> Result<bool, AllocError>
    ensures { IfOk result (λ b. IsTrue b ↔ HasAtomsOnce line.now) }
{
    match line {
        Line::Cycle(_) => Ok(true),
        Line::Learn { lits, .. } => has_atoms_once(alloc, lits.as_slice()),
    }
}

/// The line whose text, without its newline, the bytes are, and None where they are the text of none. The error only
/// says that memory ran out.
pub fn read_line(alloc: Global, bytes: &[u8]) -> Result<Option<Line>, AllocError>
    ensures line { IfOk result (λ o. MatchOption o ((l : Line) → IsLine bytes.now l → ⊥) (λ l. IsLine bytes.now l)) }
{
    let Some(line) = line_of_words(alloc, bytes)? else {
        return Ok(None);
    };
    let once = has_each_atom_once(alloc, &line)?;
    if once { Ok(Some(line)) } else { Ok(None) }
}

/// The lines whose text the bytes are.
///
/// The fault is the first line, from 1, that isn't in the grammar, a last one without its newline
/// included; or it is want of memory. Memory is taken for what was read alone.
pub fn read_lines(alloc: Global, bytes: &[u8]) -> Result<Lines, LineFault>
    requires { length bytes.now < 2 ^ 31 }
    ensures answer { Answers bytes.now result }
{
    let mut lines = Lines::new(alloc);
    let mut rest = bytes;
    while !rest.is_empty() {
        let number = lines.len() as u32 + 1;
        let Some(end) = memchr(b'\n', rest) else {
            return Err(LineFault::Syntax { line: number });
        };
        let Some(line) = read_line(alloc, &rest[..end])? else {
            return Err(LineFault::Syntax { line: number });
        };
        lines.push(line)?;
        rest = &rest[end + 1..];
    }
    Ok(lines)
}
