//! Readings of clocks, and when those of a log are valid.

ghost use Rattle.std.specs.Prelude.{◌≡◌, ◌↔◌, ◌<◌, ◌≤◌, ℕ, length, IsTrue, IfOk, IfSome, MatchOption, All, AllPairs, Any, find, reverse, true, ◌==◌, ◌&&◌, nat_le};
ghost use Rattle.mt_model.specs.Clocks.{readings_of};
ghost use Rattle.mt_model.specs.Log.{AreClockNames, AreInTurn, AreReadings, IsRead, IsReading};
ghost use Rattle.mt_model.specs.Name.{is_name};
ghost use Rattle.mt_model.specs.Readings.{AreReadUpTo};
ghost use Rattle.mt_model.specs.Timing.{reading_of};

use crate::spans::host_at;
use crate::{ClockId, HostId, Log, MAX_CLOCKS, MAX_ERROR, Name};
use mt_list::ListOf;
use std::alloc::{AllocError, Global};

/// What a host's stamps are: from the row at this place on, each is a reading of the clock that is off by
/// at most this error, in the log's unit of time, from what the clock shows. The place is the number of
/// rows that stand before the reading.
#[derive(Clone, Copy, PartialEq, Eq)]
pub struct Reading {
    pub place: u32,
    pub host: HostId,
    pub error: i128,
    pub clock: ClockId,
}

/// Readings in the order of the log.
pub type ReadingList = ListOf<Reading>;

/// For each row in order the reading that its stamp is by, where there is one.
pub type RowReadings = ListOf<Option<Reading>>;

/// Names in order.
pub type NameList = ListOf<Name>;

fn is_reading(reading: &Reading, hosts: usize, rows: usize, clocks: usize) -> bool
    ensures { IsTrue result ↔ IsReading hosts rows clocks reading.now }
{
    (reading.host.get() as usize) < hosts
        && (reading.place as usize) <= rows
        && (reading.clock.get() as usize) < clocks
        && 0 <= reading.error
        && reading.error <= MAX_ERROR
}

fn are_each(readings: &[Reading], hosts: usize, rows: usize, clocks: usize) -> bool
    ensures { IsTrue result ↔ All (IsReading hosts rows clocks) readings.now }
{
    readings
        .iter()
        .all(|reading| is_reading(reading, hosts, rows, clocks))
}

// Whether no place is below the one before it.
fn in_order(readings: &[Reading]) -> bool
    ensures { IsTrue result ↔ AllPairs (λ q r. q.place ≤ r.place) readings.now }
{
    let mut least = 0;
    for reading in readings {
        if reading.place < least {
            return false;
        }
        least = reading.place;
    }
    true
}

// How many clocks are read, and None exactly where they aren't in the order in which they are first read.
fn read_in_turn(readings: &[Reading]) -> Option<usize>
    ensures { MatchOption result (AreInTurn readings.now → ⊥) (AreReadUpTo readings.now) }
{
    let mut next = 0;
    for reading in readings {
        let clock = reading.clock.get() as usize;
        if next < clock {
            return None;
        }
        if clock == next {
            next += 1;
        }
    }
    Some(next)
}

// Whether so many clocks are read, in the order in which they are first read, where no other one is.
fn are_all_read(readings: &[Reading], clocks: usize) -> bool
    requires { All (λ r. r.clock < clocks) readings.now }
    ensures { IsTrue result ↔ (AreInTurn readings.now × ((k : ℕ) → k < clocks → IsRead k readings.now)) }
{
    match read_in_turn(readings) {
        Some(next) => next == clocks,
        None => false,
    }
}

/// Whether these can be the readings of a log of so many hosts, rows and clocks.
pub fn are_readings(hosts: usize, rows: usize, clocks: usize, readings: &[Reading]) -> bool
    ensures { IsTrue result ↔ AreReadings hosts rows clocks readings.now }
{
    let each = are_each(readings, hosts, rows, clocks);
    let in_order = in_order(readings);
    each && in_order && are_all_read(readings, clocks)
}

fn is_among(names: &[Name], name: &[u8]) -> bool
    ensures { IsTrue result ↔ Any (λ n. n ≡ name.now) names.now }
{
    names.iter().any(|n| n.bytes() == name)
}

fn are_apart(names: &[Name]) -> bool
    ensures { IsTrue result ↔ AllPairs (λ m n. n ≡ m → ⊥) names.now }
{
    for (i, name) in names.iter().enumerate() {
        if is_among(&names[i + 1..], name.bytes()) {
            return false;
        }
    }
    true
}

// The names of clocks are names.
fn are_named(names: &[Name])
    ensures { All (λ n. is_name n ≡ true) names.now }
{
    for name in names {
        let _ = name.bytes();
    }
}

/// Whether these can be the names of a log's clocks.
pub fn are_clock_names(names: &[Name]) -> bool
    ensures { IsTrue result ↔ AreClockNames names.now }
{
    are_named(names);
    let are_apart = are_apart(names);
    names.len() <= MAX_CLOCKS && are_apart
}

// Whether a reading is of a host and does not stand behind row e.
fn applies(reading: &Reading, host: u32, e: usize) -> bool
    ensures { result ≡ (reading.now.host == host && nat_le reading.now.place e) }
{
    reading.host.get() == host && reading.place as usize <= e
}

// The last reading of a host that does not stand behind row e.
fn last_reading(readings: &[Reading], host: u32, e: usize) -> Option<Reading>
    ensures { result ≡ find (λ r. r.host == host && nat_le r.place e) (reverse readings.now) }
{
    for k in (0..readings.len()).rev() {
        if applies(&readings[k], host, e) {
            return Some(readings[k]);
        }
    }
    None
}

impl Log {
    /// The reading that the stamp of row e is by: the last one of its host that does not stand behind the
    /// row, where there is one. Takes no memory.
    pub fn reading_at(&self, e: usize) -> Option<Reading>
        requires { e < length self.now.rows }
        ensures reading { result ≡ reading_of self.now e }
        ensures valid { IfSome result (IsReading (length self.now.hosts) (length self.now.rows) (length self.now.clocks)) }
    {
        last_reading(self.readings(), host_at(self, e), e)
    }

    /// The reading of each row, in the order of the rows. An error is want of memory.
    pub fn readings_by_row(&self, alloc: Global) -> Result<RowReadings, AllocError>
        ensures readings { IfOk result (λ list. list ≡ readings_of self.now) }
        ensures valid { IfOk result (All (λ r. IfSome r (IsReading (length self.now.hosts) (length self.now.rows) (length self.now.clocks)))) }
    {
        let mut list = RowReadings::new(alloc);
        for e in 0..self.rows().len() {
            list.push(self.reading_at(e))?;
        }
        Ok(list)
    }
}
