//! Which lines the last one needs.

ghost use Rattle.std.specs.Prelude.{◌≡◌, ◌⊎◌, ◌+◌, ◌≤◌, ◌<◌, ℕ, All, Contains, IfOk, length, true};
ghost use Rattle.proof_log.specs.declared.line.Hint.TheVariants as hint;
ghost use Rattle.proof_trim.specs.Needed.{LineNames, LooksBack, NamesEarlier, NoneForward};
ghost use Rattle.proof_trim.specs.Trimmed.{AreNeeded, IsMarked};

use proof_log::{Hint, Line};
use std::alloc::{AllocError, Global};

// Marks the lines that hints of a line name.
fn mark_named(marks: &mut [bool], hints: &[Hint], number: usize)
    requires earlier { All (NamesEarlier number) hints.now }
    requires within { number ≤ length marks.old }
    ensures named { (n : ℕ) → Contains hints.now (hint.Line n) → IsMarked marks.new n }
    ensures kept { (n : ℕ) → IsMarked marks.old n → IsMarked marks.new n }
    ensures only { (n : ℕ) → IsMarked marks.new n → IsMarked marks.old n ⊎ Contains hints.now (hint.Line n) }
    ensures count { length marks.new ≡ length marks.old }
{
    for hint in hints {
        if let Hint::Line(named) = *hint {
            marks[named as usize - 1] = true;
        }
    }
}

// Marks the lines that a line names.
fn mark_from(marks: &mut [bool], line: &Line, number: usize)
    requires earlier { LooksBack number line.now }
    requires within { number ≤ length marks.old }
    ensures named { (n : ℕ) → LineNames line.now n → IsMarked marks.new n }
    ensures kept { (n : ℕ) → IsMarked marks.old n → IsMarked marks.new n }
    ensures only { (n : ℕ) → IsMarked marks.new n → IsMarked marks.old n ⊎ LineNames line.now n }
    ensures count { length marks.new ≡ length marks.old }
{
    if let Line::Learn { hints, .. } = line {
        mark_named(marks, hints.as_slice(), number);
    }
}

/// Which lines the last one needs.
pub fn needed(alloc: Global, lines: &[Line]) -> Result<Vec<bool>, AllocError>
    requires some { 1 ≤ length lines.now }
    requires back { NoneForward lines.now }
    ensures { IfOk result (λ marks. AreNeeded lines.now marks.items) }
{
    let mut marks = vec![in alloc; false; lines.len()]?;
    marks[lines.len() - 1] = true;
    for i in (0..lines.len()).rev() {
        if marks[i] {
            mark_from(&mut marks, &lines[i], i + 1);
        }
    }
    Ok(marks)
}
