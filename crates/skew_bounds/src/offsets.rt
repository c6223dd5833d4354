//! Offsets of clocks, of a timing that a log admits.

ghost use Rattle.std.specs.Prelude.{◌≡◌, ◌+◌, ◌<◌, length, All, IfOk, Some};
ghost use Rattle.mt_model.specs.Clocks.{greater_of, greatest_below, least_offset, offset_at, offsets_of, readings_of};
ghost use Rattle.mt_model.specs.Log.{IsWithin};
ghost use Rattle.mt_model.specs.Timing.{reading_of};
ghost use Rattle.mt_model.specs.declared.limits.TheConstants.{MAX_TIME};
ghost use Rattle.skew_bounds.specs.Readings.{HasError};

use crate::broken::shift;
use crate::rows::row_reading;
use mt_model::{Log, Reading};
use std::alloc::{AllocError, Global};

// The least offset that a row allows of the clock that it reads.
fn least_at(log: &Log, times: &[i128], e: usize, reading: Reading) -> i128
    requires row { e < length log.now.rows }
    requires reading { reading_of log.now e ≡ Some reading }
    requires error { HasError reading }
    requires range { All (IsWithin MAX_TIME) times.now }
    requires count { length times.now ≡ length log.now.rows }
    ensures { result ≡ least_offset log.now times.now e }
{
    shift(log, times, e) - reading.error
}

// The greater one of a number and another, where there is another.
fn greater(other: Option<i128>, number: i128) -> i128
    ensures { result ≡ greater_of other number }
{
    match other {
        Some(other) => { if number <= other { other } else { number } }
        None => number,
    }
}

// The greatest of the least offsets that the rows up to row e allow of clock k, by that of the rows before it.
fn greatest_with(
    log: &Log,
    readings: &[Option<Reading>],
    times: &[i128],
    k: u32,
    e: usize,
    greatest: Option<i128>,
) -> Option<i128>
    requires row { e < length log.now.rows }
    requires readings { readings.now ≡ readings_of log.now }
    requires range { All (IsWithin MAX_TIME) times.now }
    requires count { length times.now ≡ length log.now.rows }
    requires greatest { greatest ≡ greatest_below log.now times.now k e }
    ensures { result ≡ greatest_below log.now times.now k (e + 1) }
{
    match row_reading(log, readings, e) {
        Some(reading) => {
            if reading.clock.get() == k {
                Some(greater(greatest, least_at(log, times, e, reading)))
            } else {
                greatest
            }
        }
        None => greatest,
    }
}

// The least offset of clock k that all rows allow, and 0 where no row reads it.
fn offset(log: &Log, readings: &[Option<Reading>], times: &[i128], k: u32) -> i128
    requires readings { readings.now ≡ readings_of log.now }
    requires range { All (IsWithin MAX_TIME) times.now }
    requires count { length times.now ≡ length log.now.rows }
    ensures { result ≡ offset_at log.now times.now k }
{
    let mut greatest = None;
    for e in 0..log.rows().len() {
        greatest = greatest_with(log, readings, times, k, e, greatest);
    }
    greatest.unwrap_or(0)
}

/// The offset of each clock: the least one that all rows allow which read the clock, and 0 where none does.
/// There is a time for each row, in the log's unit of time. An error is want of memory.
pub fn offsets(alloc: Global, log: &Log, times: &[i128]) -> Result<Vec<i128>, AllocError>
    requires range { All (IsWithin MAX_TIME) times.now }
    requires count { length times.now ≡ length log.now.rows }
    ensures { IfOk result (λ offsets. offsets.items ≡ offsets_of log.now times.now) }
{
    let readings = log.readings_by_row(alloc)?;
    let mut offsets = Vec::new(alloc);
    for k in 0..log.clocks().len() {
        offsets.push(offset(log, readings.as_slice(), times, k as u32))?;
    }
    Ok(offsets)
}
