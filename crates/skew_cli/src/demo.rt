//! What `demo` answers: the decision of `check` on the log of a seed, in short.

ghost use Rattle.std.specs.Prelude.{◌≡◌, ◌++◌, codes, IfOk, IsErrOf, string_bytes};
ghost use Rattle.std.specs.Fmt.{decimal};
ghost use Rattle.report_text.specs.Spelled.{IsSpelled};
ghost use Rattle.skew_answers.specs.Statuses.{IsVerdict};
ghost use Rattle.skew_answers.specs.Texts.{line};
ghost use Rattle.verdict.specs.Claims.{Claims};
ghost use Rattle.verdict.specs.Right.{HasFewLines, IsRight};
ghost use Rattle.demo_log.specs.DemoFormula.{demo_formula as demo_form};
ghost use Rattle.demo_log.specs.DemoLog.{log_of_seed};
ghost use Rattle.skew_words.specs.declared.limits.TheConstants.{DEFAULT_CONFLICTS};
ghost use Rattle.skew_cli.specs.CheckOutcome.{IsReportStatus, IsWitnessed, is_undecided as is_report_undecided};
ghost use Rattle.skew_cli.specs.DemoOutcome.{DemoOutcome, demo_text as text_of_demo, named_value as word_of_value, named_values as words_of_values, summary_text};
ghost use Rattle.skew_commands.specs.Stops.{Gives, RefusesFor};

use crate::check::{report_on, report_status};
use demo_log::{demo_formula, demo_log};
use report_text::{Report, Section, print_report};
use skew_commands::{Reply, Stop};
use skew_words::DEFAULT_CONFLICTS;
use std::alloc::{AllocError, Global};

// What the summary says of a value by the section for it.
fn named_value(value: bool, section: &Section) -> &'static str
    ensures { result.now ≡ word_of_value value section.now }
{
    match (value, section) {
        (true, Section::Witness(_)) => " true",
        (true, Section::Unknown(_)) => " true?",
        (false, Section::Witness(_)) => " false",
        (false, Section::Unknown(_)) => " false?",
        (_, Section::Refuted(_)) => "",
    }
}

// What the summary says of true and of false.
fn named_values(report: &Report) -> (&'static str, &'static str)
    ensures { result.0.now ++ result.1.now ≡ words_of_values report.now }
{
    match report {
        Report::Inconsistent { .. } => ("", ""),
        Report::Verdicts {
            on_true,
            on_false,
            ..
        } => (named_value(true, on_true), named_value(false, on_false)),
    }
}

// The line of the seed.
fn seed_line(alloc: Global, seed: u64) -> Result<String, AllocError>
    ensures { IfOk result (λ text. string_bytes text ≡ line (codes "demo " ++ decimal seed)) }
{
    let mut text = String::from_str(alloc, "demo ")?;
    let number = seed.to_string(alloc)?;
    text.push_str(number.as_str())?;
    text.push('\n')?;
    Ok(text)
}

// The line of the values.
fn values_line(alloc: Global, report: &Report) -> Result<String, AllocError>
    ensures { IfOk result (λ text. string_bytes text ≡ line (codes "values" ++ words_of_values report.now)) }
{
    let (on_true, on_false) = named_values(report);
    let mut text = String::from_str(alloc, "values")?;
    text.push_str(on_true)?;
    text.push_str(on_false)?;
    text.push('\n')?;
    Ok(text)
}

// The three lines of the summary.
fn summary(alloc: Global, seed: u64, report: &Report) -> Result<String, AllocError>
    ensures { IfOk result (λ text. string_bytes text ≡ summary_text seed report.now) }
{
    let mut text = seed_line(alloc, seed)?;
    let values = values_line(alloc, report)?;
    text.push_str("hosts 6 rows 24\n")?;
    text.push_str(values.as_str())?;
    Ok(text)
}

// Whether a section of a report is unknown.
fn is_undecided(report: &Report) -> bool
    ensures { result ≡ is_report_undecided report.now }
{
    match report {
        Report::Inconsistent { .. } => false,
        Report::Verdicts {
            on_true,
            on_false,
            ..
        } => matches!(on_true, Section::Unknown(_)) || matches!(on_false, Section::Unknown(_)),
    }
}

// The summary, and the report itself where a section is unknown.
fn demo_text(alloc: Global, seed: u64, report: &Report) -> Result<Vec<u8>, AllocError>
    requires { IsSpelled report.now }
    ensures { IfOk result (λ text. text.items ≡ text_of_demo seed report.now) }
{
    let mut text = summary(alloc, seed, report)?.into_bytes();
    if is_undecided(report) {
        let whole = print_report(alloc, report)?;
        text.extend_from_slice(&whole)?;
    }
    Ok(text)
}

// The summary of a report as a reply.
fn demo_reply(alloc: Global, seed: u64, report: &Report) -> Result<Reply, AllocError>
    requires spelled { IsSpelled report.now }
    requires witnessed { IsWitnessed report.now }
    ensures text { IfOk result (λ r. r.text.items ≡ text_of_demo seed report.now) }
    ensures status { IfOk result (λ r. IsReportStatus report.now r.status) }
    ensures verdict { IfOk result (λ r. IsVerdict r.status) }
{
    Ok(Reply {
        text: demo_text(alloc, seed, report)?,
        status: report_status(report),
    })
}

// The report on the log of a seed.
fn demo_report(alloc: Global, seed: u64) -> Result<Report, Stop>
    ensures right { IfOk result (IsRight (log_of_seed seed) demo_form DEFAULT_CONFLICTS) }
    ensures claims { IfOk result (Claims (log_of_seed seed) demo_form) }
    ensures few { IfOk result (HasFewLines DEFAULT_CONFLICTS) }
    ensures reads_nothing { IsErrOf result Stop.ReadFailed → ⊥ }
    ensures refused { RefusesFor result (λ r. ⊥) }
{
    let log = demo_log(alloc, seed)?;
    let formula = demo_formula(alloc)?;
    report_on(alloc, DEFAULT_CONFLICTS, &log, &formula)
}

/// What `demo` answers for a seed: the decision of `check` on the log of the seed, as a summary of three lines, with
/// the report after them where a section is unknown. No file is read.
pub fn demo(alloc: Global, seed: u64) -> Result<Reply, Stop>
    ensures outcome { Gives (DemoOutcome seed) result }
    ensures verdict { IfOk result (λ r. IsVerdict r.status) }
    ensures reads_nothing { IsErrOf result Stop.ReadFailed → ⊥ }
{
    let report = demo_report(alloc, seed)?;
    Ok(demo_reply(alloc, seed, &report)?)
}
