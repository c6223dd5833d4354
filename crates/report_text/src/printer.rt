//! The text of reports.

ghost use Rattle.std.specs.Prelude.{◌≡◌, ◌++◌, ◌<◌, ◌^◌, length, All, IfOk, OnOk, ℕ};
ghost use Rattle.std.specs.Fmt.{decimal};
ghost use Rattle.std.specs.List.{flat_map};
ghost use Rattle.proof_log.specs.LinesText.{lines_text};
ghost use Rattle.proof_log.specs.Spelled.{IsSpelled as IsSpelledLine};
ghost use Rattle.report_text.specs.ReportText.{body_text, bound_text, ended, events_of, report_text, section_text, time_text, walk_text};
ghost use Rattle.report_text.specs.Spelled.{IsSpelled, IsSpelledSection};

use crate::front::word_of;
use crate::report::{Report, Section};
use mt_model::Step;
use proof_log::{Line, push_line};
use std::alloc::{AllocError, Global};

/// Adds a line, with its newline. The error only says that memory ran out.
pub fn push_ended(text: &mut Vec<u8>, line: &[u8]) -> Result<(), AllocError>
    ensures text { OnOk result (text.new.items ≡ text.old.items ++ ended line.now) }
{
    text.extend_from_slice(line)?;
    text.push(b'\n')?;
    Ok(())
}

/// Adds a line of words and a number.
pub fn push_numbered(
    alloc: Global,
    text: &mut Vec<u8>,
    words: &[u8],
    number: u32,
) -> Result<(), AllocError>
    ensures { OnOk result (text.new.items ≡ text.old.items ++ ended (words.now ++ decimal number)) }
{
    let digits = number.to_string(alloc)?;
    text.extend_from_slice(words)?;
    push_ended(text, digits.as_bytes())
}

fn push_time(alloc: Global, text: &mut Vec<u8>, time: i128) -> Result<(), AllocError>
    ensures { OnOk result (text.new.items ≡ text.old.items ++ time_text time) }
{
    let digits = time.to_string(alloc)?;
    push_ended(text, digits.as_bytes())
}

fn push_times(alloc: Global, text: &mut Vec<u8>, times: &[i128]) -> Result<(), AllocError>
    ensures { OnOk result (text.new.items ≡ text.old.items ++ flat_map time_text times.now) }
{
    for time in times {
        push_time(alloc, text, *time)?;
    }
    Ok(())
}

fn push_bound(alloc: Global, text: &mut Vec<u8>, step: Step) -> Result<(), AllocError>
    ensures { OnOk result (text.new.items ≡ text.old.items ++ bound_text step) }
{
    let words = step.to_string(alloc)?;
    push_ended(text, words.as_bytes())
}

// Adds the number of bounds, and the bounds.
fn push_walk(alloc: Global, text: &mut Vec<u8>, steps: &[Step]) -> Result<(), AllocError>
    requires { length steps.now < 2 ^ 32 }
    ensures { OnOk result (text.new.items ≡ text.old.items ++ walk_text steps.now) }
{
    push_numbered(alloc, text, b"inconsistent ", steps.len() as u32)?;
    for step in steps {
        push_bound(alloc, text, *step)?;
    }
    Ok(())
}

/// Adds the number of lines after some words, and the lines, each of which has a spelling. The error only
/// says that memory ran out.
pub fn push_derivation(
    alloc: Global,
    text: &mut Vec<u8>,
    words: &[u8],
    lines: &[Line],
) -> Result<(), AllocError>
    requires count { length lines.now < 2 ^ 32 }
    requires spelled { All IsSpelledLine lines.now }
    ensures text { OnOk result (text.new.items ≡ text.old.items ++ (ended (words.now ++ decimal (length lines.now)) ++ lines_text lines.now)) }
{
    push_numbered(alloc, text, words, lines.len() as u32)?;
    for line in lines {
        push_line(alloc, text, line)?;
    }
    Ok(())
}

/// Adds the section of a truth value, which has a spelling in a report. The error only says that memory ran
/// out.
pub fn push_section(
    alloc: Global,
    text: &mut Vec<u8>,
    value: bool,
    section: &Section,
) -> Result<(), AllocError>
    requires { (events : ℕ) × IsSpelledSection events section.now }
    ensures text { OnOk result (text.new.items ≡ text.old.items ++ section_text value section.now) }
{
    text.extend_from_slice(word_of(value))?;
    match section {
        Section::Witness(times) => {
            push_ended(text, b" witness")?;
            push_times(alloc, text, times.as_slice())
        }
        Section::Refuted(lines) => push_derivation(alloc, text, b" refuted ", lines.as_slice()),
        Section::Unknown(lines) => push_derivation(alloc, text, b" unknown ", lines.as_slice()),
    }
}

fn push_body(alloc: Global, text: &mut Vec<u8>, report: &Report) -> Result<(), AllocError>
    requires { IsSpelled report.now }
    ensures { OnOk result (text.new.items ≡ text.old.items ++ body_text report.now) }
{
    match report {
        Report::Inconsistent { steps, .. } => push_walk(alloc, text, steps.as_slice()),
        Report::Verdicts {
            on_true,
            on_false,
            ..
        } => {
            push_section(alloc, text, true, on_true)?;
            push_section(alloc, text, false, on_false)
        }
    }
}

fn event_count(report: &Report) -> u32
    ensures { result ≡ events_of report.now }
{
    match report {
        Report::Inconsistent { events, .. } => *events,
        Report::Verdicts { events, .. } => *events,
    }
}

/// The one text of a report that has a spelling. The error only says that memory ran out.
pub fn print_report(alloc: Global, report: &Report) -> Result<Vec<u8>, AllocError>
    requires { IsSpelled report.now }
    ensures text { IfOk result (λ bytes. bytes.items ≡ report_text report.now) }
{
    let mut text = Vec::new(alloc);
    push_ended(&mut text, b"skewcheck 1")?;
    push_numbered(alloc, &mut text, b"events ", event_count(report))?;
    push_body(alloc, &mut text, report)?;
    push_ended(&mut text, b"end")?;
    Ok(text)
}
