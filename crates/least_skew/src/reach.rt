//! How far beyond a search its answer goes: a timing is admissible with smaller widenings too, and lines refute with
//! greater ones.

ghost use Rattle.std.specs.Prelude.{◌≡◌, ◌↔◌, ◌<◌, ◌≤◌, ◌^◌, All, length, IfOk, IsTrue};
ghost use Rattle.mt_model.specs.Log.{IsWithin};
ghost use Rattle.mt_model.specs.Timing.{Admissible};
ghost use Rattle.mt_model.specs.declared.limits.TheConstants.{MAX_TIME};
ghost use Rattle.best_answer.specs.Aims.{AreRefuting};
ghost use Rattle.least_skew.specs.declared.widening.TheConstants.{MAX_WIDENING};
ghost use Rattle.least_skew.specs.Least.{HasWrittenSkews, wide};

use crate::widening::{WideLog, widened};
use best_answer::{Aim, Growing, clamped};
use mt_model::{Log, log_is_valid};
use proof_log::Line;
use skew_bounds::{bounds, first_broken};
use std::alloc::{AllocError, Global};

// How far a time lies from the local time of a row beyond its skew.
fn excess(time: i128, local: i128, skew: i128) -> i128 {
    let late = time.saturating_sub(local);
    let early = local.saturating_sub(time);
    late.max(early).saturating_sub(skew)
}

// By how much all skews of a log have to grow so that no time lies further from its local time, as far as this widening.
fn needed(log: &Log, times: &[i128], most: u64) -> u64
    requires { length times.now ≡ length log.now.rows }
    ensures { result ≤ most }
{
    let mut least = 0;
    for e in 0..times.len() {
        let beyond = excess(times[e], log.rows()[e].local, log.skew_at(e));
        let needed = clamped(beyond, most as u128) as u64;
        least = least.max(needed);
    }
    least
}

// Whether a log admits times, of which there is one for each row.
fn admits(alloc: Global, log: &Log, times: &[i128]) -> Result<bool, AllocError>
    requires count { length times.now ≡ length log.now.rows }
    requires range { All (IsWithin MAX_TIME) times.now }
    ensures { IfOk result (λ b. IsTrue b → Admissible log.now times.now) }
{
    let bounds = bounds(alloc, log)?;
    let readings = log.readings_by_row(alloc)?;
    Ok(first_broken(log, readings.as_slice(), bounds.as_slice(), times).is_none())
}

/// The least widening from `low` to s with which times are admissible that are with s, so far as the skews alone tell.
pub fn admitted_from(
    alloc: Global,
    log: &Log,
    times: &[i128],
    low: u64,
    s: u64,
) -> Result<u64, AllocError>
    requires order { low ≤ s }
    requires range { s ≤ MAX_WIDENING }
    requires skews { HasWrittenSkews log.now }
    requires admissible { Admissible (wide s log.now) times.now }
    ensures from { IfOk result (λ r. low ≤ r) }
    ensures to { IfOk result (λ r. r ≤ s) }
    ensures admissible { IfOk result (λ r. Admissible (wide r log.now) times.now) }
{
    log_is_valid(log);
    let r = needed(log, times, s).max(low);
    if r == s {
        return Ok(s);
    }
    let narrow = widened(alloc, log, r)?;
    if admits(alloc, &narrow.log, times)? {
        Ok(r)
    } else {
        Ok(s)
    }
}

// The widening, from that of a log to `high`, up to which the walks of lines keep their sums below 0.
fn kept_up_to(alloc: Global, there: &WideLog, high: u64, lines: &[Line]) -> u64
    requires order { there.now.s ≤ high }
    ensures from { there.now.s ≤ result }
    ensures to { result ≤ high }
{
    let most = (high - there.s) as u128;
    there.s + Growing::Skews.room(alloc, &there.log, lines, most) as u64
}

// Whether lines refute the value with the widening s.
fn refutes_with(alloc: Global, aim: &Aim, s: u64, lines: &[Line]) -> Result<bool, AllocError>
    requires range { s ≤ MAX_WIDENING }
    requires skews { HasWrittenSkews aim.now.log.now }
    requires few { length lines.now < 2 ^ 32 }
    ensures refutes { IfOk result (λ b. IsTrue b ↔ AreRefuting aim.now (wide s aim.now.log.now) lines.now) }
{
    let further = widened(alloc, aim.log, s)?;
    aim.is_refuted_in(alloc, &further.log, lines)
}

/// The greatest widening up to `high` with which lines refute the value that do with that of a log, so far as their walks
/// tell.
pub fn refuted_up_to(
    alloc: Global,
    aim: &Aim,
    there: &WideLog,
    high: u64,
    lines: &[Line],
) -> Result<u64, AllocError>
    requires wide { there.now.log ≡ wide there.now.s aim.now.log.now }
    requires order { there.now.s ≤ high }
    requires range { high ≤ MAX_WIDENING }
    requires skews { HasWrittenSkews aim.now.log.now }
    requires few { length lines.now < 2 ^ 32 }
    requires refutes { AreRefuting aim.now there.now.log lines.now }
    ensures from { IfOk result (λ r. there.now.s ≤ r) }
    ensures to { IfOk result (λ r. r ≤ high) }
    ensures refutes { IfOk result (λ r. AreRefuting aim.now (wide r aim.now.log.now) lines.now) }
{
    let r = kept_up_to(alloc, there, high, lines);
    if r == there.s {
        return Ok(r);
    }
    // A widening whose lines can't be judged for want of memory isn't taken.
    match refutes_with(alloc, aim, r, lines) {
        Ok(true) => Ok(r),
        Ok(false) | Err(_) => Ok(there.s),
    }
}
