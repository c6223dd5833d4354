//! The text of an answer of `span`.

ghost use Rattle.std.specs.Prelude.{◌≡◌, ◌++◌, IfOk, string_bytes};
ghost use Rattle.report_text.specs.ReportText.{ended, last_line, section_text};
ghost use Rattle.report_text.specs.Spelled.{AreSpelledLines};
ghost use Rattle.skew_best.specs.Spelled.{HasSpelling, IsSpelledWidest};
ghost use Rattle.skew_best.specs.SpanText.{distance_text, span_text, unknown_line};

use crate::sections::{begun, whole};
use proof_log::Line;
use report_text::{Section, push_derivation, push_ended};
use skew_answers::written_steps;
use std::alloc::{AllocError, Global};
use verdict_span::Widest;

// The text of a greatest distance.
fn greatest_text(
    alloc: Global,
    value: bool,
    d: i128,
    witness: &Section,
    beyond: &[Line],
) -> Result<Vec<u8>, AllocError>
    requires witness { HasSpelling witness.now }
    requires beyond { AreSpelledLines beyond.now }
    ensures { IfOk result (λ text. text.items ≡ distance_text value d witness.now beyond.now) }
{
    let first = format!(in alloc; "span {d}")?;
    let mut text = begun(alloc, first.as_bytes(), value, witness)?;
    push_derivation(alloc, &mut text, b"beyond refuted ", beyond)?;
    push_ended(&mut text, b"end")?;
    Ok(text)
}

// The first line where a search spent its conflicts.
fn unknown_first(alloc: Global, least: Option<i128>) -> Result<String, AllocError>
    ensures { IfOk result (λ line. string_bytes line ≡ unknown_line least) }
{
    match least {
        Some(c) => format!(in alloc; "span unknown {c}"),
        None => String::from_str(alloc, "span unknown"),
    }
}

// The text where a search spent its conflicts.
fn unknown_text(
    alloc: Global,
    value: bool,
    least: Option<i128>,
    section: &Section,
) -> Result<Vec<u8>, AllocError>
    requires { HasSpelling section.now }
    ensures { IfOk result (λ text. text.items ≡ ended (unknown_line least) ++ (section_text value section.now ++ ended last_line)) }
{
    let first = unknown_first(alloc, least)?;
    whole(alloc, first.as_bytes(), value, section)
}

/// The text of an answer for a value.
pub fn written_span(alloc: Global, value: bool, answer: Widest) -> Result<Vec<u8>, AllocError>
    requires { IsSpelledWidest answer }
    ensures text { IfOk result (λ text. text.items ≡ span_text value answer) }
{
    match answer {
        Widest::Greatest { d, times, beyond } => {
            let witness = Section::Witness(times);
            greatest_text(alloc, value, d, &witness, beyond.as_slice())
        }
        Widest::Never { lines } => {
            let refuted = Section::Refuted(lines);
            whole(alloc, b"span none", value, &refuted)
        }
        Widest::Inconsistent(steps) => {
            let text = written_steps(alloc, steps.as_slice())?;
            Ok(text.into_bytes())
        }
        Widest::Unknown { least, lines } => {
            let unknown = Section::Unknown(lines);
            unknown_text(alloc, value, least, &unknown)
        }
    }
}
