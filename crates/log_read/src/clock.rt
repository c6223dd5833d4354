//! Readings of clocks: what the stamps of a host are.

ghost use Rattle.std.specs.Prelude.{◌≡◌, ◌≤◌, length};
ghost use Rattle.log_read.specs.LogOf.{clock_fault};
ghost use Rattle.log_read.specs.Reading.{EntersBy, clock_entry_with};
ghost use Rattle.log_read.specs.Records.{place_of_clock as place_found};

use crate::LogFault;
use crate::columns::Columns;
use crate::entry::place_of;
use decimal::unsigned_number;
use mt_model::{ClockId, Host, HostId, MAX_CLOCKS, MAX_ERROR, MAX_HOSTS, MAX_ROWS, Name, Reading};
use std::alloc::Global;

/// What a clock record gives: a reading, and the name of its clock where no record before named it.
#[derive(Drop)]
pub struct ClockEntry {
    pub reading: Reading,
    pub named: Option<Name>,
}

// The place of the clock of a name.
fn place_of_clock(clocks: &[Name], name: &[u8]) -> Option<usize>
    ensures { result ≡ place_found clocks.now name.now }
{
    clocks.iter().position(|clock| clock.bytes() == name)
}

/// What a clock record's fields give, after hosts that were declared, clocks that were named and so many
/// rows.
pub fn clock_entry(
    alloc: Global,
    hosts: &[Host],
    clocks: &[Name],
    rows: usize,
    columns: Columns,
) -> Result<ClockEntry, LogFault>
    requires hosts { length hosts.now ≤ MAX_HOSTS }
    requires clocks { length clocks.now ≤ MAX_CLOCKS }
    requires rows { rows ≤ MAX_ROWS }
    ensures entry { EntersBy result columns.entry (λ place. clock_fault place hosts.now clocks.now) (clock_entry_with hosts.now clocks.now rows) }
{
    let Columns {
        place,
        host,
        time: error,
        name,
    } = columns;
    let Some(number) = place_of(hosts, host) else {
        return Err(LogFault::UnknownHost { place });
    };
    let Some(error) = unsigned_number(error, MAX_ERROR) else {
        return Err(LogFault::Number { place });
    };
    let Some(new_name) = Name::new(alloc, name)? else {
        return Err(LogFault::Name { place });
    };
    let (clock, named) = match place_of_clock(clocks, name) {
        Some(clock) => (clock, None),
        None => {
            if clocks.len() >= MAX_CLOCKS {
                return Err(LogFault::TooManyClocks { place });
            }
            (clocks.len(), Some(new_name))
        }
    };
    let reading = Reading {
        place: rows as u32,
        host: HostId::new(number as u32),
        error,
        clock: ClockId::new(clock as u32),
    };
    Ok(ClockEntry { reading, named })
}
