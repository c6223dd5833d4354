//! One search, and what is known after it.

ghost use Rattle.std.specs.Prelude.{◌≡◌, ◌≤◌, ◌<◌, ◌+◌, ◌-◌, IfOk};
ghost use Rattle.formula_arena.specs.Nodes.{nodes_of};
ghost use Rattle.question.specs.Size.{IsSmall};
ghost use Rattle.best_answer.specs.Aims.{Gives, RefuteWithin};
ghost use Rattle.least_skew.specs.Brackets.{AreSmall, IsBracket};
ghost use Rattle.least_skew.specs.Least.{HasWrittenSkews, wide};
ghost use Rattle.least_skew.specs.Turns.{IsTurned, Turns};
ghost use Rattle.least_skew.specs.declared.widening.TheConstants.{MAX_WIDENING};

use crate::bracket::Bracket;
use crate::reach::{admitted_from, refuted_up_to};
use crate::widening::{WideLog, widened};
use best_answer::Aim;
use cdcl_core::Searched;
use mt_model::Times;
use proof_log::Lines;
use std::alloc::{AllocError, Global};

/// What a search between the ends of a bracket gives.
#[derive(Drop)]
pub enum Turned {
    /// The bracket is narrower.
    Narrowed(Bracket),
    /// The search at the widening s spent its budget.
    Spent { s: u64, lines: Lines },
}

// A bracket narrowed by a timing that gives the value with a widening.
fn narrowed_by_timing(
    alloc: Global,
    aim: &Aim,
    bracket: Bracket,
    there: &WideLog,
    times: Times,
) -> Result<Turned, AllocError>
    requires wide { there.now.log ≡ wide there.now.s aim.now.log.now }
    requires range { there.now.s ≤ MAX_WIDENING }
    requires skews { HasWrittenSkews aim.now.log.now }
    requires from { bracket.low ≤ there.now.s }
    requires below { there.now.s < bracket.high }
    requires gives { Gives aim.now there.now.log times }
    ensures turned { IfOk result (Turns aim.now bracket there.now.s) }
{
    let r = admitted_from(alloc, aim.log, times.as_slice(), bracket.low, there.s)?;
    Ok(Turned::Narrowed(bracket.down_to(r, times)))
}

// A bracket narrowed by lines that refute the value with a widening.
fn narrowed_by_lines(
    alloc: Global,
    aim: &Aim,
    bracket: Bracket,
    there: &WideLog,
    lines: Lines,
) -> Result<Turned, AllocError>
    requires wide { there.now.log ≡ wide there.now.s aim.now.log.now }
    requires range { bracket.high ≤ MAX_WIDENING + 1 }
    requires skews { HasWrittenSkews aim.now.log.now }
    requires from { bracket.low ≤ there.now.s }
    requires below { there.now.s < bracket.high }
    requires refuted { RefuteWithin aim.now there.now.log lines }
    ensures turned { IfOk result (Turns aim.now bracket there.now.s) }
{
    let high = bracket.high - 1;
    let r = refuted_up_to(alloc, aim, there, high, lines.as_slice())?;
    Ok(Turned::Narrowed(bracket.above(r, lines)))
}

// A bracket narrowed by what a search with a widening between its ends finds.
fn turned_by(
    alloc: Global,
    aim: &Aim,
    bracket: Bracket,
    there: &WideLog,
) -> Result<Turned, AllocError>
    requires wide { there.now.log ≡ wide there.now.s aim.now.log.now }
    requires range { bracket.high ≤ MAX_WIDENING + 1 }
    requires skews { HasWrittenSkews aim.now.log.now }
    requires from { bracket.low ≤ there.now.s }
    requires below { there.now.s < bracket.high }
    requires small { IsSmall there.now.log (nodes_of aim.now.nodes.now) }
    ensures turned { IfOk result (Turns aim.now bracket there.now.s) }
{
    match aim.search_in(alloc, &there.log)? {
        Searched::Timing(times) => narrowed_by_timing(alloc, aim, bracket, there, times),
        Searched::Refuted(lines) => narrowed_by_lines(alloc, aim, bracket, there, lines),
        Searched::Spent(lines) => Ok(Turned::Spent { s: there.s, lines }),
    }
}

/// Searches at one widening of a bracket, and narrows it by what is found.
pub fn turn(alloc: Global, aim: &Aim, max: u64, bracket: Bracket) -> Result<Turned, AllocError>
    requires range { max ≤ MAX_WIDENING }
    requires skews { HasWrittenSkews aim.now.log.now }
    requires small { AreSmall aim.now max }
    requires bracket { IsBracket aim.now max bracket }
    requires apart { bracket.low < bracket.high }
    ensures turned { IfOk result (IsTurned aim.now max (bracket.high - bracket.low)) }
{
    let there = widened(alloc, aim.log, bracket.next())?;
    turned_by(alloc, aim, bracket, &there)
}
