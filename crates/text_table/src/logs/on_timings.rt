//! Questions on timings of a log, which have `; ` between two:
//!
//! - `truth`: whether a formula, which stands after `of`, is true in each of them.
//! - `admits`: the first bound that each of them breaks.

ghost use Rattle.std.specs.Prelude.{◌≡◌, length, All, IfOk, IfSome};
ghost use Rattle.mt_model.specs.Log.{IsWithin};
ghost use Rattle.mt_model.specs.declared.limits.TheConstants.{MAX_TIME as most};

use crate::logs::on_orders;
use crate::telling::{integers, push_part, tell};
use formula_arena::ArenaFault;
use mt_model::{Formula, Log, MAX_TIME, Tree};
use skew_bounds::step_of;
use std::alloc::Global;
use table_case::formula_of;
use witness_replay::Replayer;

// The times of a timing, if they are so many and in range.
fn times_of(alloc: Global, text: &str, count: usize) -> Option<Vec<i128>>
    ensures count { IfSome result (λ times. length times.items ≡ count) }
    ensures range { IfSome result (λ times. All (IsWithin most) times.items) }
{
    let times = integers(alloc, text.trim())?;
    if times.len() == count && times.iter().all(|t| -MAX_TIME <= *t && *t <= MAX_TIME) {
        Some(times)
    } else {
        None
    }
}

// Whether the formula is true in each timing.
fn truths(alloc: Global, log: &Log, replayer: &mut Replayer, timings: &str) -> Option<String>
    requires { replayer.old.log ≡ log.now }
{
    let mut line = String::new(alloc);
    for timing in timings.split(';') {
        let times = times_of(alloc, timing, log.rows().len())?;
        push_part(&mut line, replayer.truth(&times))?;
    }
    Some(line)
}

// Adds the first bound that times break, or that they are admitted.
fn push_broken(line: &mut String, replayer: &Replayer, times: &[i128]) -> Option<()>
    requires count { length times.now ≡ length replayer.now.log.rows }
    requires range { All (IsWithin most) times.now }
{
    let is_admitted = replayer.admits(times);
    match replayer.broken(times) {
        None if is_admitted => push_part(line, "admitted"),
        Some(bound) if !is_admitted => push_part(line, step_of(bound)),
        _ => None,
    }
}

// The first broken bound of each timing.
fn broken(alloc: Global, log: &Log, replayer: &Replayer, timings: &str) -> Option<String>
    requires { replayer.now.log ≡ log.now }
{
    let mut line = String::new(alloc);
    for timing in timings.split(';') {
        let times = times_of(alloc, timing, log.rows().len())?;
        push_broken(&mut line, replayer, &times)?;
    }
    Some(line)
}

// The replayer of a formula over the hosts of a log.
fn replayer_of(alloc: Global, log: &Log, formula: &Formula) -> Option<Result<Replayer, ArenaFault>>
    ensures log { IfSome result (λ made. IfOk made (λ replayer. replayer.log ≡ log.now)) }
{
    match formula.unknown_host(log) {
        None => Some(Replayer::new(alloc, log, formula)),
        Some(_) => None,
    }
}

// The same of a replayer that isn't used again.
fn truths_by(alloc: Global, log: &Log, replayer: Replayer, timings: &str) -> Option<String>
    requires { replayer.log ≡ log.now }
{
    let mut replayer = replayer;
    truths(alloc, log, &mut replayer, timings)
}

// Adds whether a formula is true in each timing, or that it has too many nodes.
fn tell_truths_of(
    alloc: Global,
    log: &Log,
    formula: &Formula,
    timings: &str,
    out: &mut Vec<u8>,
) -> Option<()> {
    match replayer_of(alloc, log, formula)? {
        Ok(replayer) => tell(alloc, out, truths_by(alloc, log, replayer, timings)?),
        Err(fault @ ArenaFault::TooManyNodes) => tell(alloc, out, fault),
        Err(ArenaFault::Memory) => None,
    }
}

fn tell_truths(alloc: Global, log: &Log, rest: &str, out: &mut Vec<u8>) -> Option<()> {
    let (timings, formula) = rest.split_once(" of ")?;
    let formula = formula_of(alloc, formula.as_bytes())?;
    tell_truths_of(alloc, log, &formula, timings, out)
}

// The replayer of the formula that is true.
fn plain_replayer(alloc: Global, log: &Log) -> Option<Replayer>
    ensures log { IfSome result (λ replayer. replayer.log ≡ log.now) }
{
    let formula = Formula::new(Tree::True)?;
    replayer_of(alloc, log, &formula)?.ok()
}

// The first bound of the log that each timing breaks.
fn broken_of(alloc: Global, log: &Log, timings: &str) -> Option<String> {
    let replayer = plain_replayer(alloc, log)?;
    broken(alloc, log, &replayer, timings)
}

fn tell_broken(alloc: Global, log: &Log, timings: &str, out: &mut Vec<u8>) -> Option<()> {
    tell(alloc, out, broken_of(alloc, log, timings)?)
}

/// Answers a question, which is one on orders if it isn't one of these.
pub fn answer(alloc: Global, word: &str, rest: &str, log: &Log, out: &mut Vec<u8>) -> Option<()> {
    match word {
        "truth" => tell_truths(alloc, log, rest, out),
        "admits" => tell_broken(alloc, log, rest, out),
        _ => on_orders::answer(alloc, word, rest, log, out),
    }
}
