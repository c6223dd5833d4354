//! One search, and what is known after it.

ghost use Rattle.std.specs.Prelude.{◌≡◌, ◌<◌, pos, ◌+ℤ◌, ◌≤ℤ◌, IfOk};
ghost use Rattle.formula_arena.specs.Nodes.{nodes_of};
ghost use Rattle.question.specs.Size.{IsSmall};
ghost use Rattle.best_answer.specs.Aims.{Gives, RefuteWithin};
ghost use Rattle.verdict_span.specs.Climbs.{IsClimb, IsTurned};
ghost use Rattle.verdict_span.specs.Spans.{AreSmall, distant};

use crate::climb::Climb;
use crate::reach::refuted_from;
use crate::spacing::{SpacedLog, distance, spaced};
use crate::span::Span;
use cdcl_core::Searched;
use mt_model::{Times, log_is_valid};
use proof_check::refuted_is_no_value;
use proof_log::Lines;
use std::alloc::{AllocError, Global};

/// What a search at a distance of a climb gives.
#[derive(Drop)]
pub enum Turned {
    /// There is less room.
    Narrowed(Climb),
    /// The search of the log in which the other event comes at least c after the one spent its budget.
    Spent { c: i128, lines: Lines },
}

// The climb where a timing gives the value with a distance above its own.
fn narrowed_by_timing(span: &Span, climb: Climb, there: &SpacedLog, times: Times) -> Climb
    requires spaced { there.now.log ≡ distant span.now there.now.c }
    requires climb { IsClimb span.now climb }
    requires from { (climb.distance +ℤ pos 1) ≤ℤ there.now.c }
    requires to { there.now.c ≤ℤ (climb.distance +ℤ pos climb.room) }
    requires gives { Gives span.now.aim there.now.log times }
    ensures room { result.room < climb.room }
    ensures climb { IsClimb span.now result }
{
    refuted_is_no_value();
    log_is_valid(span.aim.log);
    let d = distance(times.as_slice(), span.e, span.to);
    climb.up_to(times, d)
}

// The climb where lines refute the value with a distance above its own, and maybe with smaller ones too.
fn narrowed_by_lines(
    alloc: Global,
    span: &Span,
    climb: Climb,
    there: &SpacedLog,
    lines: Lines,
) -> Result<Climb, AllocError>
    requires spaced { there.now.log ≡ distant span.now there.now.c }
    requires climb { IsClimb span.now climb }
    requires from { (climb.distance +ℤ pos 1) ≤ℤ there.now.c }
    requires to { there.now.c ≤ℤ (climb.distance +ℤ pos climb.room) }
    requires refuted { RefuteWithin span.now.aim there.now.log lines }
    ensures room { IfOk result (λ narrowed. narrowed.room < climb.room) }
    ensures climb { IfOk result (IsClimb span.now) }
{
    let low = climb.distance + 1;
    let c = refuted_from(alloc, span, low, there, lines.as_slice())?;
    Ok(climb.down_to(c, lines))
}

// The climb after a search at a distance above its own.
fn turned_by(
    alloc: Global,
    span: &Span,
    climb: Climb,
    there: &SpacedLog,
) -> Result<Turned, AllocError>
    requires spaced { there.now.log ≡ distant span.now there.now.c }
    requires small { IsSmall there.now.log (nodes_of span.now.aim.nodes.now) }
    requires climb { IsClimb span.now climb }
    requires from { (climb.distance +ℤ pos 1) ≤ℤ there.now.c }
    requires to { there.now.c ≤ℤ (climb.distance +ℤ pos climb.room) }
    ensures turned { IfOk result (IsTurned span.now climb.room) }
{
    match span.aim.search_in(alloc, &there.log)? {
        Searched::Timing(times) => {
            let narrowed = narrowed_by_timing(span, climb, there, times);
            Ok(Turned::Narrowed(narrowed))
        }
        Searched::Refuted(lines) => {
            let narrowed = narrowed_by_lines(alloc, span, climb, there, lines)?;
            Ok(Turned::Narrowed(narrowed))
        }
        Searched::Spent(lines) => Ok(Turned::Spent { c: there.c, lines }),
    }
}

/// Searches at one distance of a climb, and takes from its room by what is found.
pub fn turn(alloc: Global, span: &Span, climb: Climb) -> Result<Turned, AllocError>
    requires small { AreSmall span.now }
    requires climb { IsClimb span.now climb }
    requires room { 0 < climb.room }
    ensures turned { IfOk result (IsTurned span.now climb.room) }
{
    let c = climb.distance + climb.next() as i128;
    let there = spaced(alloc, span, c)?;
    turned_by(alloc, span, climb, &there)
}
