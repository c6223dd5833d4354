//! What stands at the front of bytes, up to a newline, and what follows it: None where something else stands there.

ghost use Rattle.std.specs.Prelude.{◌≡◌, ◌↔◌, ◌++◌, IfOk, IsTrue, List, MatchOption, ℕ, ℤ};
ghost use Rattle.mt_model.specs.declared.limits.TheConstants.{MAX_TIME};
ghost use Rattle.mt_model.specs.Log.{IsWithin};
ghost use Rattle.mt_model.specs.Texts.{step_text};
ghost use Rattle.proof_log.specs.LinesText.{line_text};
ghost use Rattle.proof_log.specs.Spelled.{IsNumber, IsSpelled as IsSpelledLine};
ghost use Rattle.report_text.specs.Parts.{BeginWithLine, IsCut, IsFront, IsKind, IsLineOf, IsNumbered, IsOpening, IsTimeLine, NoFront, events_text, kind_text, opening_line, opening_text};
ghost use Rattle.report_text.specs.ReportOf.{LacksNewline};
ghost use Rattle.report_text.specs.ReportText.{bound_text, ended, kind_line, time_text, value_word};
ghost use Rattle.report_text.specs.Spelled.{IsSpelledBound};

use crate::part::{Kind, Opening};
use decimal::{number, signed_number};
use memchr::memchr;
use mt_model::{MAX_TIME, Step};
use proof_log::pass_line;
use std::alloc::{AllocError, Global};

// The bytes before the first newline, and those after it.
fn cut(bytes: &[u8]) -> Option<(&[u8], &[u8])>
    ensures { MatchOption result (LacksNewline bytes.now) (λ r. IsCut bytes.now r.0.now r.1.now) }
{
    let end = memchr(b'\n', bytes)?;
    Some((&bytes[..end], &bytes[end + 1..]))
}

// What follows some words in a line.
fn after_prefix<'a>(words: &[u8], line: &'a [u8]) -> Option<&'a [u8]>
    ensures { MatchOption result ((rest : List ℕ) → line.now ≡ words.now ++ rest → ⊥) (λ rest. line.now ≡ words.now ++ rest.now) }
{
    line.strip_prefix(words)
}

// The number of a line of some words and a number below 2^32.
fn number_after(words: &[u8], line: &[u8]) -> Option<u32>
    ensures { MatchOption result ((n : ℕ) → IsNumbered words.now line.now n → ⊥) (IsNumbered words.now line.now) }
{
    let digits = after_prefix(words, line)?;
    let value = number(digits, 1 << 32)?;
    Some(value as u32)
}

/// Whether a number is of magnitude up to 10^19.
pub fn is_time(time: i128) -> bool
    ensures { IsTrue result ↔ IsWithin MAX_TIME time }
{
    -MAX_TIME <= time && time <= MAX_TIME
}

fn time_of(line: &[u8]) -> Option<i128>
    ensures { MatchOption result ((t : ℤ) → IsTimeLine line.now t → ⊥) (IsTimeLine line.now) }
{
    signed_number(line, MAX_TIME)
}

fn bound_of(line: &[u8]) -> Option<Step>
    ensures { MatchOption result ((s : Step) → IsLineOf IsSpelledBound step_text line.now s → ⊥) (IsLineOf IsSpelledBound step_text line.now) }
{
    if let Some(e) = number_after(b"low ", line) {
        Some(Step::Low(e))
    } else if let Some(e) = number_after(b"high ", line) {
        Some(Step::High(e))
    } else if let Some(e) = number_after(b"rise ", line) {
        Some(Step::Rise(e))
    } else if let Some(e) = number_after(b"message ", line) {
        Some(Step::Message(e))
    } else if let Some(e) = number_after(b"late ", line) {
        Some(Step::Late(e))
    } else if let Some(e) = number_after(b"under ", line) {
        Some(Step::Under(e))
    } else if let Some(e) = number_after(b"over ", line) {
        Some(Step::Over(e))
    } else {
        let k = number_after(b"extra ", line)?;
        Some(Step::Extra(k))
    }
}

/// The word of a truth value.
pub fn word_of(value: bool) -> &'static [u8]
    ensures { result.now ≡ value_word value }
{
    if value { b"true" } else { b"false" }
}

// The kind of the words after that of a truth value.
fn kind_of(value: bool, line: &[u8]) -> Option<Kind>
    ensures { MatchOption result ((k : Kind) → IsLineOf IsKind (kind_line value) line.now k → ⊥) (IsLineOf IsKind (kind_line value) line.now) }
{
    let words = after_prefix(word_of(value), line)?;
    if words == b" witness".as_slice() {
        Some(Kind::Witness)
    } else if let Some(count) = number_after(b" refuted ", words) {
        Some(Kind::Refuted(count))
    } else {
        let count = number_after(b" unknown ", words)?;
        Some(Kind::Unknown(count))
    }
}

fn opening_of(line: &[u8]) -> Option<Opening>
    ensures { MatchOption result ((o : Opening) → IsLineOf IsOpening opening_line line.now o → ⊥) (IsLineOf IsOpening opening_line line.now) }
{
    if let Some(count) = number_after(b"inconsistent ", line) {
        Some(Opening::Inconsistent(count))
    } else {
        let kind = kind_of(true, line)?;
        Some(Opening::OnTrue(kind))
    }
}

/// What follows a line of these words alone, which have no newline.
pub fn after_words<'a>(words: &[u8], bytes: &'a [u8]) -> Option<&'a [u8]>
    requires { LacksNewline words.now }
    ensures { MatchOption result ((rest : List ℕ) → bytes.now ≡ ended words.now ++ rest → ⊥) (λ rest. bytes.now ≡ ended words.now ++ rest.now) }
{
    let (line, rest) = cut(bytes)?;
    if line == words { Some(rest) } else { None }
}

/// The number of events.
pub fn next_events(bytes: &[u8]) -> Option<(u32, &[u8])>
    ensures { MatchOption result (NoFront IsNumber events_text bytes.now) (λ r. IsFront IsNumber events_text bytes.now r.0 r.1.now) }
{
    let (line, rest) = cut(bytes)?;
    let events = number_after(b"events ", line)?;
    Some((events, rest))
}

/// The first line after the number of events.
pub fn next_opening(bytes: &[u8]) -> Option<(Opening, &[u8])>
    ensures { MatchOption result (NoFront IsOpening opening_text bytes.now) (λ r. IsFront IsOpening opening_text bytes.now r.0 r.1.now) }
{
    let (line, rest) = cut(bytes)?;
    let opening = opening_of(line)?;
    Some((opening, rest))
}

/// The first line of the section of a truth value.
pub fn next_kind(value: bool, bytes: &[u8]) -> Option<(Kind, &[u8])>
    ensures { MatchOption result (NoFront IsKind (kind_text value) bytes.now) (λ r. IsFront IsKind (kind_text value) bytes.now r.0 r.1.now) }
{
    let (line, rest) = cut(bytes)?;
    let kind = kind_of(value, line)?;
    Some((kind, rest))
}

/// A time of a witness.
pub fn next_time(bytes: &[u8]) -> Option<(i128, &[u8])>
    ensures { MatchOption result (NoFront (IsWithin MAX_TIME) time_text bytes.now) (λ r. IsFront (IsWithin MAX_TIME) time_text bytes.now r.0 r.1.now) }
{
    let (line, rest) = cut(bytes)?;
    let time = time_of(line)?;
    Some((time, rest))
}

/// A bound of a log.
pub fn next_bound(bytes: &[u8]) -> Option<(Step, &[u8])>
    ensures { MatchOption result (NoFront IsSpelledBound bound_text bytes.now) (λ r. IsFront IsSpelledBound bound_text bytes.now r.0 r.1.now) }
{
    let (line, rest) = cut(bytes)?;
    let step = bound_of(line)?;
    Some((step, rest))
}

/// What follows a line of a derivation.
pub fn after_line(alloc: Global, bytes: &[u8]) -> Result<Option<&[u8]>, AllocError>
    ensures { IfOk result (λ o. MatchOption o (NoFront IsSpelledLine line_text bytes.now) (λ rest. BeginWithLine bytes.now rest.now)) }
{
    pass_line(alloc, bytes)
}
