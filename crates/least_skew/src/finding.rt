//! The least widening.

ghost use Rattle.std.specs.Prelude.{◌≡◌, ◌≤◌, IfErr, IfOk, None, OnOk};
ghost use Rattle.mt_model.specs.Form.{form_of};
ghost use Rattle.mt_model.specs.State.{unknown_host};
ghost use Rattle.skew_bounds.specs.Tight.{IsConsistent};
ghost use Rattle.question.specs.Faults.{IsFault as IsQuestionFault, IsJudged};
ghost use Rattle.question.specs.Settled.{IsSettled};
ghost use Rattle.least_skew.specs.Brackets.{AreSmall, IsRight};
ghost use Rattle.least_skew.specs.Faults.{IsAsked, IsFault};
ghost use Rattle.least_skew.specs.Least.{HasWrittenSkews, LeastRight, wide};
ghost use Rattle.least_skew.specs.Told.{IsInconsistentExactly, Tells};
ghost use Rattle.least_skew.specs.declared.widening.TheConstants.{MAX_WIDENING};

use crate::bracket::Bracket;
use crate::laws::{right_tolerances_are_least, skews_may_grow};
use crate::turn::{Turned, turn};
use crate::widening::{WideLog, widened};
use crate::{Tolerance, ToleranceFault};
use best_answer::Aim;
use mt_model::{Formula, Log, log_is_valid};
use question::{Nodes, Question, QuestionFault, Settled, sizes_fall};
use std::alloc::{AllocError, Global};

// The least widening, where some timing is admissible with the greatest one.
fn search_least(alloc: Global, aim: &Aim, max: u64) -> Result<Tolerance, AllocError>
    requires range { max ≤ MAX_WIDENING }
    requires skews { HasWrittenSkews aim.now.log.now }
    requires small { AreSmall aim.now max }
    requires consistent { IsConsistent (wide max aim.now.log.now) }
    ensures right { IfOk result (IsRight aim.now max) }
{
    let mut bracket = Bracket::up_to(max);
    while bracket.low < bracket.high {
        match turn(alloc, aim, max, bracket)? {
            Turned::Narrowed(narrowed) => bracket = narrowed,
            Turned::Spent { s, lines } => return Ok(Tolerance::Unknown { s, lines }),
        }
    }
    Ok(bracket.answer())
}

// What is known of the log with the greatest widening before any search.
fn ready_with(alloc: Global, aim: &Aim, widest: &Log) -> Result<Settled, QuestionFault>
    requires hosts { unknown_host widest.now aim.now.nodes.now ≡ None }
    ensures settled { IfOk result (IsSettled widest.now) }
    ensures judged { OnOk result (IsJudged widest.now aim.now.nodes.now) }
    ensures fault { IfErr result (IsQuestionFault widest.now aim.now.nodes.now) }
{
    Question::new(alloc, widest, aim.nodes)?.ready(alloc)
}

// The least widening, for what is sought.
fn least_of(alloc: Global, aim: &Aim, widest: &WideLog) -> Result<Tolerance, QuestionFault>
    requires wide { widest.now.log ≡ wide widest.now.s aim.now.log.now }
    requires range { widest.now.s ≤ MAX_WIDENING }
    requires skews { HasWrittenSkews aim.now.log.now }
    ensures right { IfOk result (IsRight aim.now widest.now.s) }
    ensures asked { OnOk result (IsAsked aim.now.log.now aim.now.nodes.now widest.now.s) }
    ensures fault { IfErr result (IsFault aim.now.log.now aim.now.nodes.now widest.now.s) }
{
    skews_may_grow();
    sizes_fall();
    match ready_with(alloc, aim, &widest.log)? {
        Settled::Conflict(steps) => Ok(Tolerance::Inconsistent(steps)),
        Settled::Timing { .. } => Ok(search_least(alloc, aim, widest.s)?),
    }
}

/// By how much all skews of a log have to grow at least, up to a greatest widening, so that the formula has the value in
/// some timing that the log then admits; with a timing that shows it, and lines that refute the value with one less. Each
/// search has the budget of conflicts, which is from 1 to 1,000,000; where one spends it, its lines are the answer.
///
/// The greatest widening is at most 10^18, and no skew of the log is above 10^18. The faults other than want of memory
/// come in this order: a host that isn't in the log, too many nodes, and a problem that is too large with the greatest
/// widening.
pub fn least(
    alloc: Global,
    log: &Log,
    f: &Formula,
    value: bool,
    max: u64,
    budget: u32,
) -> Result<Tolerance, ToleranceFault>
    requires some { 1 ≤ budget }
    requires most { budget ≤ 1000000 }
    requires range { max ≤ MAX_WIDENING }
    requires skews { HasWrittenSkews log.now }
    ensures right { IfOk result (LeastRight log.now (form_of f.now) value max budget) }

    // A least widening is the least with the value, never is for every widening up to the greatest, and a budget isn't spent
    // that is three to the power of the number of atoms, or more.
    ensures tells { IfOk result (Tells log.now (form_of f.now) value max budget) }
    ensures inconsistent { IfOk result (IsInconsistentExactly log.now max) }
    ensures asked { OnOk result (IsAsked log.now (form_of f.now) max) }
    ensures fault { IfErr result (IsFault log.now (form_of f.now) max) }
{
    right_tolerances_are_least();
    log_is_valid(log);
    let widest = widened(alloc, log, max)?;
    let nodes = Nodes::asked(alloc, &widest.log, f)?;
    let aim = Aim {
        log,
        nodes: &nodes,
        value,
        budget,
    };
    least_of(alloc, &aim, &widest)
}
