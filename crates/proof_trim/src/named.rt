//! The lines that the hints of a text of lines name: they are read once, and kept as numbers.

ghost use Rattle.std.specs.Prelude.{◌≡◌, ◌↔◌, ◌++◌, ◌<◌, ℕ, List, All, IfOk, IsTrue, OnOk, Some, false, length, take, slice_get};
ghost use Rattle.std.specs.List.{flat_map};
ghost use Rattle.proof_log.specs.declared.line.Line.{Line};
ghost use Rattle.proof_log.specs.LinesOf.{IsTextOf};
ghost use Rattle.proof_log.specs.Parts.{OfLine};
ghost use Rattle.proof_log.specs.Reading.{words_after};
ghost use Rattle.proof_trim.specs.Naming.{AreNamed, IsEarlier, named_in, named_of};

use crate::naming::next_named;
use proof_log::{LineWords, next_words};
use std::alloc::{AllocError, Global};

/// The numbers of the lines that hints name.
#[derive(Drop)]
pub struct NamedLines {
    pub numbers: Vec<u32>,
    /// Where the numbers of each line end.
    pub ends: Vec<usize>,
}

fn add_named(numbers: &mut Vec<u32>, words: &[u8]) -> Result<(), AllocError>
    ensures { OnOk result (numbers.new.items ≡ numbers.old.items ++ named_in false (words_after words.now)) }
{
    let mut rest = words;
    while let Some(next) = next_named(rest) {
        numbers.push(next.line)?;
        rest = next.after;
    }
    Ok(())
}

fn add_line(numbers: &mut Vec<u32>, words: LineWords) -> Result<(), AllocError>
    ensures { OnOk result (OfLine words.entry (λ l. numbers.new.items ≡ numbers.old.items ++ named_of l)) }
{
    match words {
        LineWords::Cycle(_) => Ok(()),
        LineWords::Learn(words) => add_named(numbers, words),
    }
}

/// The lines that the hints of a text name. Room for the ends of the numbers of `count` lines is taken at once.
pub fn named_lines(alloc: Global, text: &[u8], count: u32) -> Result<NamedLines, AllocError>
    requires lines { (lines : List Line) × IsTextOf text.now lines }
    ensures named { IfOk result (λ n. (lines : List Line) → IsTextOf text.now lines → AreNamed lines n.numbers.items n.ends.items) }
{
    let mut numbers = Vec::new(alloc);
    let mut ends = Vec::with_capacity(alloc, count as usize)?;
    let mut rest = text;
    while let Some((words, after)) = next_words(rest) {
        add_line(&mut numbers, words)?;
        ends.push(numbers.len())?;
        rest = after;
    }
    Ok(NamedLines { numbers, ends })
}

fn start_of(ends: &[usize], i: usize) -> usize
    requires { i < length ends.now }
    ensures { (lines : List Line) (numbers : List ℕ) → AreNamed lines numbers ends.now → result ≡ length (flat_map named_of (take i lines)) }
{
    if i == 0 { 0 } else { ends[i - 1] }
}

/// The numbers of a line, which counts from 0.
pub fn numbers_at<'a>(numbers: &'a [u32], ends: &[usize], i: usize) -> &'a [u32]
    requires within { i < length ends.now }
    requires named { (lines : List Line) × AreNamed lines numbers.now ends.now }
    ensures named { (lines : List Line) (l : Line) → AreNamed lines numbers.now ends.now → slice_get lines i ≡ Some l → result.now ≡ named_of l }
{
    &numbers[start_of(ends, i)..ends[i]]
}

/// Whether each of some numbers is that of an earlier line.
pub fn are_earlier(named: &[u32], number: u32) -> bool
    ensures { IsTrue result ↔ All (IsEarlier number) named.now }
{
    named.iter().all(|n| 0 < *n && *n < number)
}
