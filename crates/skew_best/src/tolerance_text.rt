//! The text of an answer of `tolerance`.

ghost use Rattle.std.specs.Prelude.{◌≡◌, ◌++◌, IfOk, OnOk, codes};
ghost use Rattle.std.specs.Fmt.{decimal};
ghost use Rattle.report_text.specs.ReportText.{ended, last_line, section_text};
ghost use Rattle.skew_best.specs.Spelled.{AreSpelledBelow, HasSpelling, IsSpelledTolerance};
ghost use Rattle.skew_best.specs.ToleranceText.{below_text, tolerance_text, widening_text};

use crate::sections::{begun, whole};
use least_skew::Tolerance;
use proof_log::Lines;
use report_text::{Section, push_derivation, push_ended};
use skew_answers::written_steps;
use std::alloc::{AllocError, Global};

// Adds the lines that refute the value with one less, where there are any.
fn push_below(alloc: Global, text: &mut Vec<u8>, below: &Option<Lines>) -> Result<(), AllocError>
    requires { AreSpelledBelow below.now }
    ensures { OnOk result (text.new.items ≡ text.old.items ++ below_text below.now) }
{
    match below {
        Some(lines) => push_derivation(alloc, text, b"below refuted ", lines.as_slice()),
        None => Ok(()),
    }
}

// The text of a least widening.
fn least_text(
    alloc: Global,
    value: bool,
    s: u64,
    witness: &Section,
    below: &Option<Lines>,
) -> Result<Vec<u8>, AllocError>
    requires witness { HasSpelling witness.now }
    requires below { AreSpelledBelow below.now }
    ensures { IfOk result (λ text. text.items ≡ widening_text value s witness.now below.now) }
{
    let first = format!(in alloc; "tolerance {s}")?;
    let mut text = begun(alloc, first.as_bytes(), value, witness)?;
    push_below(alloc, &mut text, below)?;
    push_ended(&mut text, b"end")?;
    Ok(text)
}

// The text of a widening at which the search spent its budget.
fn unknown_text(
    alloc: Global,
    value: bool,
    s: u64,
    section: &Section,
) -> Result<Vec<u8>, AllocError>
    requires { HasSpelling section.now }
    ensures { IfOk result (λ text. text.items ≡ ended (codes "tolerance unknown " ++ decimal s) ++ (section_text value section.now ++ ended last_line)) }
{
    let first = format!(in alloc; "tolerance unknown {s}")?;
    whole(alloc, first.as_bytes(), value, section)
}

/// The text of an answer for a value.
pub fn written_tolerance(
    alloc: Global,
    value: bool,
    answer: Tolerance,
) -> Result<Vec<u8>, AllocError>
    requires { IsSpelledTolerance answer }
    ensures text { IfOk result (λ text. text.items ≡ tolerance_text value answer) }
{
    match answer {
        Tolerance::Least { s, times, below } => {
            let witness = Section::Witness(times);
            least_text(alloc, value, s, &witness, &below)
        }
        Tolerance::Never { lines } => {
            let refuted = Section::Refuted(lines);
            whole(alloc, b"tolerance none", value, &refuted)
        }
        Tolerance::Inconsistent(steps) => {
            let text = written_steps(alloc, steps.as_slice())?;
            Ok(text.into_bytes())
        }
        Tolerance::Unknown { s, lines } => {
            let unknown = Section::Unknown(lines);
            unknown_text(alloc, value, s, &unknown)
        }
    }
}
