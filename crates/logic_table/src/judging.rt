//! What a search found, judged by parts that share nothing with it: timings are replayed, and lines checked.

ghost use Rattle.std.specs.Prelude.{◌≡◌, length, All, IfSome, None};
ghost use Rattle.mt_model.specs.Form.{form_of};
ghost use Rattle.mt_model.specs.Log.{IsWithin};
ghost use Rattle.mt_model.specs.State.{unknown_host};
ghost use Rattle.mt_model.specs.declared.limits.TheConstants.{MAX_TIME};

use crate::checking::checked;
use crate::outcome::{Fault, Outcome};
use crate::searching::Asked;
use cdcl_core::Found;
use mt_model::{Formula, Log, MAX_TIME, Times};
use proof_check::Check;
use proof_log::Line;
use std::alloc::Global;
use witness_replay::Replayer;

// The time of a number, where it is one that a row may have.
fn time_of(number: i128, zero: i128) -> Option<i128>
    ensures range { IfSome result (IsWithin MAX_TIME) }
{
    let time = number.checked_sub(zero)?;
    if -MAX_TIME <= time && time <= MAX_TIME {
        Some(time)
    } else {
        None
    }
}

// The times of numbers, where each is one that a row may have.
fn times_from(alloc: Global, zero: i128, numbers: &[i128]) -> Option<Times>
    ensures range { IfSome result (All (IsWithin MAX_TIME)) }
{
    let mut times = Times::new(alloc);
    for number in numbers {
        times.push(time_of(*number, zero)?).ok()?;
    }
    Some(times)
}

// The times of so many rows, where these are the numbers of the nodes: node 0 is the zero moment, and behind
// the rows come the clocks.
fn times_of(alloc: Global, rows: usize, numbers: &[i128]) -> Option<Times>
    ensures range { IfSome result (All (IsWithin MAX_TIME)) }
{
    let (zero, numbers) = numbers.split_first()?;
    if numbers.len() < rows {
        None
    } else {
        times_from(alloc, *zero, &numbers[..rows])
    }
}

// What times are as a model.
fn judged_times(replayer: &mut Replayer, times: &[i128], value: bool) -> Outcome
    requires count { length times.now ≡ length replayer.old.log.rows }
    requires range { All (IsWithin MAX_TIME) times.now }
{
    if !replayer.admits(times) {
        Outcome::Wrong(Fault::NotAdmitted)
    } else if replayer.truth(times) == value {
        Outcome::Model
    } else {
        Outcome::Wrong(Fault::OtherValue)
    }
}

// What times, one for each row, are as a model, where there is memory.
fn replayed(alloc: Global, log: &Log, f: &Formula, value: bool, times: &[i128]) -> Option<Outcome>
    requires hosts { unknown_host log.now (form_of f.now) ≡ None }
    requires count { length times.now ≡ length log.now.rows }
    requires range { All (IsWithin MAX_TIME) times.now }
{
    let mut replayer = Replayer::new(alloc, log, f).ok()?;
    Some(judged_times(&mut replayer, times, value))
}

// What numbers of the nodes are as a model, where there is memory.
fn judged_model(
    alloc: Global,
    log: &Log,
    f: &Formula,
    value: bool,
    numbers: &[i128],
) -> Option<Outcome>
    requires hosts { unknown_host log.now (form_of f.now) ≡ None }
{
    match times_of(alloc, log.rows().len(), numbers) {
        Some(times) if times.len() == log.rows().len() => {
            replayed(alloc, log, f, value, times.as_slice())
        }
        _ => Some(Outcome::Wrong(Fault::Times)),
    }
}

// How many of the lines are Learn lines whose clauses aren't empty.
fn learnt(lines: &[Line]) -> usize {
    lines
        .iter()
        .filter(|line| match line {
            Line::Cycle(_) => false,
            Line::Learn { lits, .. } => lits.len() > 0,
        })
        .count()
}

// What lines are as a refutation: those of a search learn fewer clauses than its budget.
fn judged_refutation(check: Check, learnt: usize, budget: usize) -> Outcome {
    match check {
        Check::Wrong(line) => Outcome::Wrong(Fault::Line(line)),
        Check::Derives => Outcome::Wrong(Fault::NoEmptyClause),
        Check::Refutes if learnt < budget => Outcome::Refuted,
        Check::Refutes => Outcome::Wrong(Fault::Learnt(learnt)),
    }
}

// What lines are where a search has spent its budget: they learn as many clauses.
fn judged_spending(check: Check, learnt: usize, budget: usize) -> Outcome {
    match check {
        Check::Wrong(line) => Outcome::Wrong(Fault::Line(line)),
        Check::Refutes => Outcome::Wrong(Fault::EmptyClause),
        Check::Derives if learnt == budget => Outcome::Spent(learnt),
        Check::Derives => Outcome::Wrong(Fault::Learnt(learnt)),
    }
}

/// What is said of what a search found, where there is memory.
pub fn judged(alloc: Global, log: &Log, f: &Formula, asked: Asked, found: &Found) -> Option<Outcome>
    requires hosts { unknown_host log.now (form_of f.now) ≡ None }
{
    let Asked { value, budget, .. } = asked;
    match found {
        Found::Model { potentials, .. } => {
            judged_model(alloc, log, f, value, potentials.as_slice())
        }
        Found::Refuted(lines) | Found::Spent(lines) if lines.len() > 2 * budget as usize => {
            Some(Outcome::Wrong(Fault::Lines(lines.len())))
        }
        Found::Refuted(lines) => {
            let check = checked(alloc, log, f, value, lines.as_slice())?;
            Some(judged_refutation(check, learnt(lines.as_slice()), budget as usize))
        }
        Found::Spent(lines) => {
            let check = checked(alloc, log, f, value, lines.as_slice())?;
            Some(judged_spending(check, learnt(lines.as_slice()), budget as usize))
        }
    }
}
