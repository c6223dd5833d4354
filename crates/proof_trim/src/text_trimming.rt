//! Derivations without needless lines, by their text.

ghost use Rattle.std.specs.Prelude.{◌≡◌, ◌↔◌, ◌<◌, ◌≤◌, ◌^◌, ℕ, [], List, All, Err, IfOk, IsTrue, OnOk, length};
ghost use Rattle.proof_log.specs.declared.line.Line.{Line};
ghost use Rattle.proof_log.specs.LinesOf.{IsTextOf};
ghost use Rattle.proof_trim.specs.Laws.{CanBeTrimmed};
ghost use Rattle.proof_trim.specs.Needed.{IsFirstForward, NoneForward};
ghost use Rattle.proof_trim.specs.Naming.{AreNamed};
ghost use Rattle.proof_trim.specs.Placed.{IsTrimmedText, OfNamed};

use crate::fault::TrimFault;
use crate::named::named_lines;
use crate::text_copy::marked_text;
use crate::text_needed::{first_forward_in, needed_in};
use std::alloc::{AllocError, Global};

/// The text of lines, and how many they are.
#[derive(Drop)]
pub struct TrimmedText {
    pub text: Vec<u8>,
    pub count: u32,
}

fn are_all_marked(marks: &[bool]) -> bool
    ensures { IsTrue result ↔ All IsTrue marks.now }
{
    marks.iter().all(|mark| *mark)
}

// What is left of the lines of a text whose hints name these, each an earlier line. Where all are needed each keeps its
// number, and the text is copied as it stands.
fn left_text(
    alloc: Global,
    text: &[u8],
    numbers: &[u32],
    ends: &[usize],
) -> Result<TrimmedText, AllocError>
    requires some { 1 ≤ length ends.now }
    requires few { length ends.now < 2 ^ 31 }
    requires named { (lines : List Line) × IsTextOf text.now lines × AreNamed lines numbers.now ends.now × NoneForward lines }
    ensures trimmed { IfOk result (λ t. OfNamed text.now numbers.now ends.now (λ lines. NoneForward lines → IsTrimmedText lines t.text.items t.count)) }
{
    let marks = needed_in(alloc, numbers, ends)?;
    if are_all_marked(&marks) {
        return Ok(TrimmedText {
            text: text.to_vec(alloc)?,
            count: ends.len() as u32,
        });
    }
    let (text, count) = marked_text(alloc, text, &marks)?;
    Ok(TrimmedText { text, count })
}

// What is left of the lines of a text whose hints name these.
fn trim_named(
    alloc: Global,
    text: &[u8],
    numbers: &[u32],
    ends: &[usize],
) -> Result<TrimmedText, TrimFault>
    requires few { length ends.now < 2 ^ 31 }
    requires named { (lines : List Line) × IsTextOf text.now lines × AreNamed lines numbers.now ends.now }
    ensures trimmed { IfOk result (λ t. OfNamed text.now numbers.now ends.now (λ lines. IsTrimmedText lines t.text.items t.count)) }
    ensures can { OnOk result ((lines : List Line) → AreNamed lines numbers.now ends.now → CanBeTrimmed lines) }
    ensures empty { result ≡ Err TrimFault.Empty → (lines : List Line) → AreNamed lines numbers.now ends.now → lines ≡ [] }
    ensures hint { (n : ℕ) → result ≡ Err (TrimFault.Hint n) → (lines : List Line) → AreNamed lines numbers.now ends.now → IsFirstForward lines n }
{
    if ends.is_empty() {
        return Err(TrimFault::Empty);
    }
    match first_forward_in(numbers, ends) {
        Some(line) => Err(TrimFault::Hint { line }),
        None => Ok(left_text(alloc, text, numbers, ends)?),
    }
}

/// What `trim` makes of the lines whose text the bytes are. Room for the ends of `count` lines is taken at once; nothing
/// else goes by that number. Beside room for a text as long as the given one, memory is taken for a few numbers a line, and
/// for one number for each hint that names a line.
pub fn trim_text(alloc: Global, text: &[u8], count: u32) -> Result<TrimmedText, TrimFault>
    requires few { length text.now < 2 ^ 31 }
    requires lines { (lines : List Line) × IsTextOf text.now lines }
    ensures trimmed { IfOk result (λ t. (lines : List Line) → IsTextOf text.now lines → IsTrimmedText lines t.text.items t.count) }
    ensures can { OnOk result ((lines : List Line) → IsTextOf text.now lines → CanBeTrimmed lines) }
    ensures empty { result ≡ Err TrimFault.Empty → (lines : List Line) → IsTextOf text.now lines → lines ≡ [] }
    ensures hint { (n : ℕ) → result ≡ Err (TrimFault.Hint n) → (lines : List Line) → IsTextOf text.now lines → IsFirstForward lines n }
{
    let named = named_lines(alloc, text, count)?;
    trim_named(alloc, text, &named.numbers, &named.ends)
}
