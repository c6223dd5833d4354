//! Reports of the values that a formula can have.

ghost use Rattle.std.specs.Prelude.{◌≡◌, ◌≤◌, length, IfErr, IfOk, OnOk, None};
ghost use Rattle.mt_model.specs.Form.{form_of};
ghost use Rattle.mt_model.specs.State.{unknown_host};
ghost use Rattle.mt_model.specs.Timing.{Admissible};
ghost use Rattle.mt_model.specs.Truth.{truth};
ghost use Rattle.skew_bounds.specs.Tight.{IsTight};
ghost use Rattle.question.specs.Settled.{IsSettled};
ghost use Rattle.report_text.specs.Spelled.{IsSpelledSection};
ghost use Rattle.verdict.specs.Claims.{Claims};
ghost use Rattle.question.specs.Faults.{IsFault, IsJudged};
ghost use Rattle.verdict.specs.Right.{CyclesOnce, HasFewLines, HasFewLinesIn, IsRight, IsRightSection};

use crate::VerdictFault;
use crate::laws::right_reports_are_true;
use cdcl_core::{Budget, Searched, search_value};
use mt_model::{Formula, Log, Times, log_is_valid};
use question::{Nodes, Question, Settled};
use report_text::{Report, Section};
use skew_bounds::Tight;
use std::alloc::{AllocError, Global};
use witness_replay::truth_by;

// What a search finds of a value, with so many conflicts at most.
fn searched(
    alloc: Global,
    question: Question,
    tight: &Tight,
    value: bool,
    budget: Budget,
) -> Result<Section, AllocError>
    requires judged { IsJudged question.log question.form }
    requires tight { IsTight question.log tight.now }
    ensures right { IfOk result (IsRightSection question.entry.log question.entry.form budget value) }
    ensures spelled { IfOk result (IsSpelledSection (length question.entry.log.rows)) }
    ensures few { IfOk result (HasFewLinesIn budget) }
{
    log_is_valid(question.log());
    // For the proof: the call says how great a budget is at most.
    let _ = budget.get();
    match search_value(alloc, question, tight, value, budget)? {
        Searched::Timing(times) => Ok(Section::Witness(times)),
        Searched::Refuted(lines) => Ok(Section::Refuted(lines)),
        Searched::Spent(lines) => Ok(Section::Unknown(lines)),
    }
}

// The value that the formula has in an admissible timing.
fn value_in(alloc: Global, question: &Question, times: &[i128]) -> Result<bool, AllocError>
    requires admissible { Admissible question.now.log times.now }
    ensures value { IfOk result (λ v. v ≡ truth question.now.log times.now 0 question.now.form) }
{
    log_is_valid(question.log());
    truth_by(alloc, question, times)
}

// The timing is a witness of the value that the formula has in it, and the other value is searched for.
fn verdicts(
    alloc: Global,
    question: Question,
    tight: &Tight,
    times: Times,
    budget: Budget,
) -> Result<Report, AllocError>
    requires judged { IsJudged question.log question.form }
    requires tight { IsTight question.log tight.now }
    requires admissible { Admissible question.log times }
    ensures right { IfOk result (IsRight question.entry.log question.entry.form budget) }
    ensures once { IfOk result (CyclesOnce question.entry.log) }
    ensures few { IfOk result (HasFewLines budget) }
{
    let log = question.log();
    let value = value_in(alloc, &question, times.as_slice())?;
    let other = searched(alloc, question, tight, !value, budget)?;
    let events = log.rows().len() as u32;
    let witness = Section::Witness(times);
    if value {
        Ok(Report::Verdicts {
            events,
            on_true: witness,
            on_false: other,
        })
    } else {
        Ok(Report::Verdicts {
            events,
            on_true: other,
            on_false: witness,
        })
    }
}

// The report of a question of which it is known whether the log's bounds can be met.
fn report_of(
    alloc: Global,
    question: Question,
    settled: Settled,
    budget: Budget,
) -> Result<Report, AllocError>
    requires judged { IsJudged question.log question.form }
    requires settled { IsSettled question.log settled }
    ensures right { IfOk result (IsRight question.entry.log question.entry.form budget) }
    ensures once { IfOk result (CyclesOnce question.entry.log) }
    ensures few { IfOk result (HasFewLines budget) }
{
    match settled {
        Settled::Conflict(steps) => {
            let events = question.log().rows().len() as u32;
            Ok(Report::Inconsistent { events, steps })
        }
        Settled::Timing { times, tight } => verdicts(alloc, question, &tight, times, budget),
    }
}

// The report of the formula of these nodes, whose hosts are in the log.
fn report_on(
    alloc: Global,
    log: &Log,
    nodes: &Nodes,
    budget: Budget,
) -> Result<Report, VerdictFault>
    requires hosts { unknown_host log.now nodes.now ≡ None }
    ensures right { IfOk result (IsRight log.now nodes.now budget) }
    ensures once { IfOk result (CyclesOnce log.now) }
    ensures few { IfOk result (HasFewLines budget) }
    ensures judged { OnOk result (IsJudged log.now nodes.now) }
    ensures fault { IfErr result (IsFault log.now nodes.now) }
{
    let question = Question::new(alloc, log, nodes)?;
    let settled = question.ready(alloc)?;
    Ok(report_of(alloc, question, settled, budget)?)
}

/// A report of the values that a formula can have, over all timings that a log admits: where it admits none, a negative
/// cycle that comes to no moment twice; else for each value a timing in which the formula has it, lines that refute it,
/// or, of one value alone, lines with as many fresh clauses learnt as the budget; at most twice as many lines as the
/// budget either way. The budget is from 1 to 1,000,000, for each value.
///
/// The faults other than want of memory come exactly where the formula isn't judged of the log, and say why: a host
/// that isn't in the log, then too many nodes, then a problem that is too large.
pub fn decide(alloc: Global, log: &Log, f: &Formula, budget: u32) -> Result<Report, VerdictFault>
    requires some { 1 ≤ budget }
    requires most { budget ≤ 1000000 }
    ensures right { IfOk result (IsRight log.now (form_of f.now) budget) }
    ensures claims { IfOk result (Claims log.now (form_of f.now)) }
    ensures once { IfOk result (CyclesOnce log.now) }
    ensures few { IfOk result (HasFewLines budget) }
    ensures judged { OnOk result (IsJudged log.now (form_of f.now)) }
    ensures fault { IfErr result (IsFault log.now (form_of f.now)) }
{
    right_reports_are_true();
    log_is_valid(log);
    let nodes = Nodes::asked(alloc, log, f)?;
    report_on(alloc, log, &nodes, Budget::new(budget))
}
