//! The greatest distance.

ghost use Rattle.std.specs.Prelude.{◌≡◌, ◌≢◌, ◌≤◌, ◌<◌, length, pos, ◌+ℤ◌, IfErr, IfOk, OnOk};
ghost use Rattle.mt_model.specs.Form.{form_of};
ghost use Rattle.mt_model.specs.Log.{IsWithin};
ghost use Rattle.mt_model.specs.declared.limits.TheConstants.{MAX_EXTRAS, MAX_TIME};
ghost use Rattle.formula_arena.specs.Nodes.{nodes_of};
ghost use Rattle.skew_bounds.specs.Tight.{IsConsistent, IsGreatestDifference, IsTight};
ghost use Rattle.question.specs.Faults.{IsFault, IsJudged};
ghost use Rattle.question.specs.Size.{IsSmall};
ghost use Rattle.cdcl_core.specs.Values.{RefuteEachValue};
ghost use Rattle.best_answer.specs.Aims.{Gives};
ghost use Rattle.verdict_span.specs.Climbs.{IsClimb};
ghost use Rattle.verdict_span.specs.Spans.{AreSmall, IsRight, distant};
ghost use Rattle.verdict_span.specs.Told.{IsInconsistentExactly, Tells};
ghost use Rattle.verdict_span.specs.Widest.{WidestRight};

use crate::climb::{Climb, gap};
use crate::laws::right_spans_are_greatest;
use crate::spacing::{distance, spaced};
use crate::span::Span;
use crate::turn::{Turned, turn};
use crate::{SpanFault, Widest};
use best_answer::Aim;
use cdcl_core::{Budget, Searched, refuted_by_conflict, search_value};
use mt_model::{EventId, Formula, Log, Times, log_is_valid};
use proof_log::Lines;
use question::{Nodes, Question, Settled, sizes_fall};
use skew_bounds::{Consistency, Tight, settle};
use std::alloc::{AllocError, Global};

// The line that refutes each value where `to` comes later after e than it can, which is at most `top` after it.
fn refuted_above(alloc: Global, span: &Span, top: i128) -> Result<Lines, AllocError>
    requires near { IsWithin (MAX_TIME +ℤ MAX_TIME) top }
    requires top { IsGreatestDifference span.now.aim.log.now span.now.e span.now.to top }
    ensures refuted { IfOk result (RefuteEachValue (distant span.now (top +ℤ pos 1))) }
    ensures one { IfOk result (λ lines. length lines ≡ 1) }
{
    let far = spaced(alloc, span, top + 1)?;
    match settle(alloc, &far.log)? {
        Consistency::Conflict(steps) => refuted_by_conflict(alloc, &far.log, steps),
        Consistency::Timing(_) => unreachable!(),
    }
}

// The climb from a timing that gives the value, where `to` comes at most `top` after e.
fn climb_from(alloc: Global, span: &Span, top: i128, times: Times) -> Result<Climb, AllocError>
    requires near { IsWithin (MAX_TIME +ℤ MAX_TIME) top }
    requires top { IsGreatestDifference span.now.aim.log.now span.now.e span.now.to top }
    requires gives { Gives span.now.aim span.now.aim.log.now times }
    ensures climb { IfOk result (IsClimb span.now) }
{
    log_is_valid(span.aim.log);
    let distance = distance(times.as_slice(), span.e, span.to);
    let beyond = refuted_above(alloc, span, top)?;
    Ok(Climb {
        distance,
        times,
        room: gap(distance, top),
        beyond,
        turns: 0,
    })
}

// The greatest distance, where a climb has begun.
fn climb_on(alloc: Global, span: &Span, climb: Climb) -> Result<Widest, AllocError>
    requires small { AreSmall span.now }
    requires climb { IsClimb span.now climb }
    ensures right { IfOk result (IsRight span.now) }
{
    let mut climb = climb;
    while 0 < climb.room {
        match turn(alloc, span, climb)? {
            Turned::Narrowed(narrowed) => climb = narrowed,
            Turned::Spent { c, lines } => {
                return Ok(Widest::Unknown {
                    least: Some(c),
                    lines,
                });
            }
        }
    }
    Ok(climb.answer())
}

// The greatest distance, where some timing is admissible, by the question of the log itself.
fn search_widest(
    alloc: Global,
    span: &Span,
    question: Question,
    tight: &Tight,
) -> Result<Widest, AllocError>
    requires log { question.log ≡ span.now.aim.log.now }
    requires form { question.form ≡ span.now.aim.nodes.now }
    requires consistent { IsConsistent span.now.aim.log.now }
    requires small { IsSmall span.now.aim.log.now (nodes_of span.now.aim.nodes.now) }
    requires spaced_small { AreSmall span.now }
    requires tight { IsTight span.now.aim.log.now tight.now }
    ensures right { IfOk result (IsRight span.now) }
{
    let top = tight.greatest(span.e, span.to);
    let budget = Budget::new(span.aim.budget);
    match search_value(alloc, question, tight, span.aim.value, budget)? {
        Searched::Timing(times) => {
            let climb = climb_from(alloc, span, top, times)?;
            climb_on(alloc, span, climb)
        }
        Searched::Refuted(lines) => Ok(Widest::Never { lines }),
        Searched::Spent(lines) => Ok(Widest::Unknown { least: None, lines }),
    }
}

// The greatest distance, for what is sought.
fn widest_of(alloc: Global, span: &Span) -> Result<Widest, SpanFault>
    ensures right { IfOk result (IsRight span.now) }
    ensures judged { OnOk result (IsJudged span.now.aim.log.now span.now.aim.nodes.now) }
    ensures fault { IfErr result (IsFault span.now.aim.log.now span.now.aim.nodes.now) }
{
    sizes_fall();
    let question = Question::new(alloc, span.aim.log, span.aim.nodes)?;
    match question.ready(alloc)? {
        Settled::Conflict(steps) => Ok(Widest::Inconsistent(steps)),
        Settled::Timing { times: _, tight } => Ok(search_widest(alloc, span, question, &tight)?),
    }
}

/// How long after e `to` comes at most, in the log's unit of time, in the timings that the log admits and that give the
/// formula the value; with a timing that shows it, and lines that refute the value where `to` comes later. Each search has
/// the budget of conflicts, which is from 1 to 1,000,000; where one spends it, its lines are the answer.
///
/// Both events are rows of the log, and different, and it has fewer than 1,048,576 extra bounds. The faults other than
/// want of memory come in this order: a host that isn't in the log, too many nodes, and a problem that is too large.
pub fn widest(
    alloc: Global,
    log: &Log,
    f: &Formula,
    value: bool,
    e: EventId,
    to: EventId,
    budget: u32,
) -> Result<Widest, SpanFault>
    requires some { 1 ≤ budget }
    requires most { budget ≤ 1000000 }
    requires row { e < length log.now.rows }
    requires other { to < length log.now.rows }
    requires apart { e ≢ to }
    requires room { length log.now.extras < MAX_EXTRAS }
    ensures right { IfOk result (WidestRight log.now (form_of f.now) value e to budget) }

    // A greatest distance is the greatest with the value, never is for every timing, and a budget isn't spent that is three
    // to the power of the number of atoms, or more.
    ensures tells { IfOk result (Tells log.now (form_of f.now) value e to budget) }
    ensures inconsistent { IfOk result (IsInconsistentExactly log.now) }
    ensures judged { OnOk result (IsJudged log.now (form_of f.now)) }
    ensures fault { IfErr result (IsFault log.now (form_of f.now)) }
{
    right_spans_are_greatest();
    log_is_valid(log);
    let nodes = Nodes::asked(alloc, log, f)?;
    let aim = Aim {
        log,
        nodes: &nodes,
        value,
        budget,
    };
    widest_of(alloc, &Span { aim, e, to })
}
