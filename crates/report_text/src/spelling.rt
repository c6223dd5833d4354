//! Which reports have a spelling.

ghost use Rattle.std.specs.Prelude.{◌↔◌, All, IfOk, IsTrue};
ghost use Rattle.mt_model.specs.declared.limits.TheConstants.{MAX_TIME};
ghost use Rattle.mt_model.specs.Log.{IsWithin};
ghost use Rattle.proof_log.specs.Spelled.{IsSpelled as IsSpelledLine};
ghost use Rattle.report_text.specs.Spelled.{AreSpelledBounds, AreSpelledLines, AreSpelledVerdicts, IsSpelled, IsSpelledBound, IsSpelledInconsistent, IsSpelledSection, IsSpelledWitness};

use crate::front::is_time;
use crate::report::{Report, Section};
use mt_model::Step;
use proof_log::{Line, has_spelling as has_line_spelling, is_number};
use std::alloc::{AllocError, Global};

fn is_bound(step: Step) -> bool
    ensures { IsTrue result ↔ IsSpelledBound step }
{
    match step {
        Step::Low(_) | Step::High(_) | Step::Rise(_) => true,
        Step::Message(_) | Step::Late(_) | Step::Under(_) => true,
        Step::Over(_) | Step::Extra(_) => true,
        Step::Order { .. } => false,
    }
}

fn are_times(times: &[i128]) -> bool
    ensures { IsTrue result ↔ All (IsWithin MAX_TIME) times.now }
{
    times.iter().all(|time| is_time(*time))
}

fn are_bounds(steps: &[Step]) -> bool
    ensures { IsTrue result ↔ All IsSpelledBound steps.now }
{
    steps.iter().all(|step| is_bound(*step))
}

fn is_witness(events: u32, times: &[i128]) -> bool
    ensures { IsTrue result ↔ IsSpelledWitness events times.now }
{
    times.len() == events as usize && are_times(times)
}

fn is_walk(steps: &[Step]) -> bool
    ensures { IsTrue result ↔ AreSpelledBounds steps.now }
{
    is_number(steps.len()) && are_bounds(steps)
}

fn is_each_spelled(alloc: Global, lines: &[Line]) -> Result<bool, AllocError>
    ensures { IfOk result (λ b. IsTrue b ↔ All IsSpelledLine lines.now) }
{
    for line in lines {
        let spelled = has_line_spelling(alloc, line)?;
        if !spelled {
            return Ok(false);
        }
    }
    Ok(true)
}

fn is_derivation(alloc: Global, lines: &[Line]) -> Result<bool, AllocError>
    ensures { IfOk result (λ b. IsTrue b ↔ AreSpelledLines lines.now) }
{
    if is_number(lines.len()) {
        is_each_spelled(alloc, lines)
    } else {
        Ok(false)
    }
}

fn is_section(alloc: Global, events: u32, section: &Section) -> Result<bool, AllocError>
    ensures { IfOk result (λ b. IsTrue b ↔ IsSpelledSection events section.now) }
{
    match section {
        Section::Witness(times) => Ok(is_witness(events, times.as_slice())),
        Section::Refuted(lines) => is_derivation(alloc, lines.as_slice()),
        Section::Unknown(lines) => is_derivation(alloc, lines.as_slice()),
    }
}

// Whether an inconsistent report has a spelling. Its number of events is in range by its type.
fn is_inconsistent(_events: u32, steps: &[Step]) -> bool
    ensures { IsTrue result ↔ IsSpelledInconsistent _events steps.now }
{
    is_walk(steps)
}

fn are_verdicts(
    alloc: Global,
    events: u32,
    on_true: &Section,
    on_false: &Section,
) -> Result<bool, AllocError>
    ensures { IfOk result (λ b. IsTrue b ↔ AreSpelledVerdicts events on_true.now on_false.now) }
{
    let first = is_section(alloc, events, on_true)?;
    if first {
        is_section(alloc, events, on_false)
    } else {
        Ok(false)
    }
}

/// Whether a report has a spelling, which `print_report` asks of it. The error only says that memory
/// ran out.
pub fn has_spelling(alloc: Global, report: &Report) -> Result<bool, AllocError>
    ensures spelled { IfOk result (λ b. IsTrue b ↔ IsSpelled report.now) }
{
    match report {
        Report::Inconsistent { events, steps } => Ok(is_inconsistent(*events, steps.as_slice())),
        Report::Verdicts {
            events,
            on_true,
            on_false,
        } => are_verdicts(alloc, *events, on_true, on_false),
    }
}
