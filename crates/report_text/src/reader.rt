//! Reports from their text.

ghost use Rattle.std.specs.Prelude.{◌≡◌, ◌<◌, ◌^◌, length, IfOk, List, ℕ};
ghost use Rattle.mt_model.specs.declared.limits.TheConstants.{MAX_TIME};
ghost use Rattle.mt_model.specs.Log.{IsWithin};
ghost use Rattle.proof_log.specs.LinesOf.{IsTextOf};
ghost use Rattle.report_text.specs.Outlines.{IsOutlineIn, IsOutlineOf, IsSectionOutline};
ghost use Rattle.report_text.specs.ReportOf.{Answers, IsCutShort, IsFaultyAtEnd};
ghost use Rattle.report_text.specs.ReportText.{bound_text, time_text};
ghost use Rattle.report_text.specs.Spelled.{IsSpelled, IsSpelledBound, IsSpelledSection};
ghost use Rattle.report_text.specs.Stops.{AreItems, FindsItems};

use crate::fault::ReportFault;
use crate::items::{read_bounds, read_times};
use crate::outline::{Outline, SectionOutline};
use crate::outlining::read_outline;
use crate::part::Kind;
use crate::report::{Report, Section};
use crate::stop::Stop;
use mt_model::{Step, Steps, Times};
use proof_log::{Line, LineFault, Lines, read_lines};
use std::alloc::{AllocError, Global};

/// The times whose lines the text is. The error only says that memory ran out.
pub fn times_of(alloc: Global, count: u32, text: &[u8]) -> Result<Times, AllocError>
    requires { AreItems (IsWithin MAX_TIME) time_text count text.now }
    ensures times { IfOk result (FindsItems (IsWithin MAX_TIME) time_text count text.now) }
{
    let mut times = Times::new(alloc);
    match read_times(&mut times, count, text) {
        Ok(_) => Ok(times),
        Err(Stop::Syntax { .. }) => unreachable!(),
        Err(Stop::Memory) => Err(AllocError),
    }
}

/// The bounds whose lines the text is. The error only says that memory ran out.
pub fn steps_of(alloc: Global, count: u32, text: &[u8]) -> Result<Steps, AllocError>
    requires { AreItems IsSpelledBound bound_text count text.now }
    ensures steps { IfOk result (FindsItems IsSpelledBound bound_text count text.now) }
{
    let mut steps = Steps::new(alloc);
    match read_bounds(&mut steps, count, text) {
        Ok(_) => Ok(steps),
        Err(Stop::Syntax { .. }) => unreachable!(),
        Err(Stop::Memory) => Err(AllocError),
    }
}

// The lines of a derivation whose text it is.
fn lines_of(alloc: Global, text: &[u8]) -> Result<Lines, AllocError>
    requires few { length text.now < 2 ^ 31 }
    requires text { (lines : List Line) × IsTextOf text.now lines }
    ensures { IfOk result (λ found. (lines : List Line) → IsTextOf text.now lines → found ≡ lines) }
{
    match read_lines(alloc, text) {
        Ok(lines) => Ok(lines),
        Err(LineFault::Syntax { .. }) => unreachable!(),
        Err(LineFault::Memory) => Err(AllocError),
    }
}

// The section of an outline.
fn section_of(alloc: Global, events: u32, outline: SectionOutline) -> Result<Section, AllocError>
    requires few { length outline.text.now < 2 ^ 31 }
    requires some { (s : Section) × IsSectionOutline outline s × IsSpelledSection events s }
    ensures { IfOk result (λ found. (s : Section) → IsSectionOutline outline.entry s → IsSpelledSection events s → found ≡ s) }
{
    match outline.kind {
        Kind::Witness => Ok(Section::Witness(times_of(alloc, events, outline.text)?)),
        Kind::Refuted(_) => Ok(Section::Refuted(lines_of(alloc, outline.text)?)),
        Kind::Unknown(_) => Ok(Section::Unknown(lines_of(alloc, outline.text)?)),
    }
}

// The report of an outline.
fn report_of(alloc: Global, outline: Outline) -> Result<Report, AllocError>
    requires { (bytes : List ℕ) × (length bytes < 2 ^ 31) × IsOutlineIn bytes outline }
    ensures { IfOk result (λ found. (r : Report) → IsOutlineOf outline.entry r → IsSpelled r → found ≡ r) }
{
    match outline {
        Outline::Inconsistent {
            events,
            count,
            text,
        } => {
            let steps = steps_of(alloc, count, text)?;
            Ok(Report::Inconsistent { events, steps })
        }
        Outline::Verdicts {
            events,
            on_true,
            on_false,
        } => {
            let on_true = section_of(alloc, events, on_true)?;
            let on_false = section_of(alloc, events, on_false)?;
            Ok(Report::Verdicts {
                events,
                on_true,
                on_false,
            })
        }
    }
}

/// The report whose text the bytes are.
///
/// The fault is the first line, from 1, such that no report begins with the lines up to and including
/// it, or the number of lines plus 1 where the text ends too early; a last line without its newline
/// counts as a faulty line. Or it is want of memory, which is taken for what was read alone.
pub fn read_report(alloc: Global, bytes: &[u8]) -> Result<Report, ReportFault>
    requires { length bytes.now < 2 ^ 31 }
    ensures answer { Answers bytes.now result }
    // Each proper prefix of a report's text.
    ensures cut { IsCutShort bytes.now → IsFaultyAtEnd bytes.now result }
{
    let outline = read_outline(alloc, bytes)?;
    match report_of(alloc, outline) {
        Ok(report) => Ok(report),
        Err(AllocError) => Err(ReportFault::Memory),
    }
}
