//! Which lines of a text the last one needs, by the numbers that its hints name.

ghost use Rattle.std.specs.Prelude.{◌≡◌, ◌⊎◌, ◌+◌, ◌<◌, ◌≤◌, ◌^◌, ℕ, List, All, Contains, length, IfOk, MatchOption};
ghost use Rattle.proof_log.specs.declared.line.Line.{Line};
ghost use Rattle.proof_trim.specs.Naming.{AreNamed, IsEarlier};
ghost use Rattle.proof_trim.specs.Needed.{IsFirstForward, NoneForward};
ghost use Rattle.proof_trim.specs.Trimmed.{AreNeeded, IsMarked};

use crate::named::{NamedLines, are_earlier, numbers_at};
use std::alloc::{AllocError, Global};

/// The first line, counted from 1, with a hint that names a line which does not come before it.
pub fn first_forward_in(numbers: &[u32], ends: &[usize]) -> Option<u32>
    requires few { length ends.now < 2 ^ 32 }
    requires named { (lines : List Line) × AreNamed lines numbers.now ends.now }
    ensures first { (lines : List Line) → AreNamed lines numbers.now ends.now → MatchOption result (NoneForward lines) (IsFirstForward lines) }
{
    for i in 0..ends.len() {
        let number = i as u32 + 1;
        if !are_earlier(numbers_at(numbers, ends, i), number) {
            return Some(number);
        }
    }
    None
}

// Marks the lines of these numbers.
fn mark_numbers(marks: &mut [bool], named: &[u32], number: usize)
    requires earlier { All (IsEarlier number) named.now }
    requires within { number ≤ length marks.old }
    ensures named { (n : ℕ) → Contains named.now n → IsMarked marks.new n }
    ensures kept { (n : ℕ) → IsMarked marks.old n → IsMarked marks.new n }
    ensures only { (n : ℕ) → IsMarked marks.new n → IsMarked marks.old n ⊎ Contains named.now n }
    ensures count { length marks.new ≡ length marks.old }
{
    for n in named {
        marks[*n as usize - 1] = true;
    }
}

/// Which lines the last one needs.
pub fn needed_in(alloc: Global, numbers: &[u32], ends: &[usize]) -> Result<Vec<bool>, AllocError>
    requires some { 1 ≤ length ends.now }
    requires named { (lines : List Line) × AreNamed lines numbers.now ends.now × NoneForward lines }
    ensures needed { IfOk result (λ marks. (lines : List Line) → AreNamed lines numbers.now ends.now → NoneForward lines → AreNeeded lines marks.items) }
{
    let mut marks = vec![in alloc; false; ends.len()]?;
    marks[ends.len() - 1] = true;
    for i in (0..ends.len()).rev() {
        if marks[i] {
            mark_numbers(&mut marks, numbers_at(numbers, ends, i), i + 1);
        }
    }
    Ok(marks)
}
