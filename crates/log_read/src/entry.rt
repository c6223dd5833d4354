//! What the fields of one record declare or give: a host, a row, a resync or a latency, or its fault.

ghost use Rattle.std.specs.Prelude.{◌≡◌, ◌≤◌, length};
ghost use Rattle.mt_model.specs.Name.{is_reserved};
ghost use Rattle.log_read.specs.LogOf.{host_fault, event_fault, is_declared, is_delayed, is_sent, latency_fault, resync_fault, sends_again};
ghost use Rattle.log_read.specs.Reading.{EntersBy};
ghost use Rattle.log_read.specs.Records.{host_with, latency_with, resync_with, row_with, place_of_host};

use crate::LogFault;
use crate::columns::Columns;
use crate::fields::Field;
use crate::kind::EventKind;
use crate::latency::{Latency, greatest_of, least_of};
use decimal::{signed_number, unsigned_number};
use mt_model::{
    Host, HostId, MAX_GAP, MAX_HOSTS, MAX_LOCAL, MAX_ROWS, MAX_WRITTEN_SKEW, MIN_DELAY, Name,
    Resync, Row, sends,
};
use std::alloc::Global;

fn names_no_host(name: &[u8]) -> bool
    ensures { result ≡ is_reserved name.now }
{
    name == b"true".as_slice() || name == b"false".as_slice() || name == b"inf".as_slice()
}

fn declares(hosts: &[Host], name: &[u8]) -> bool
    ensures { result ≡ is_declared hosts.now name.now }
{
    hosts.iter().any(|h| h.name.bytes() == name)
}

/// The place of the host of a name.
pub fn place_of(hosts: &[Host], name: &[u8]) -> Option<usize>
    ensures place { result ≡ place_of_host hosts.now name.now }
{
    hosts.iter().position(|h| h.name.bytes() == name)
}

/// Whether one of the rows sends the message.
pub fn sent(rows: &[Row], message: &[u8]) -> bool
    ensures { result ≡ is_sent rows.now message.now }
{
    rows.iter().any(|row| sends(row, message))
}

fn repeats(kind: EventKind, rows: &[Row], message: &[u8]) -> bool
    ensures { result ≡ sends_again kind rows.now message.now }
{
    match kind {
        EventKind::Send => sent(rows, message),
        EventKind::Set | EventKind::Clear | EventKind::Recv | EventKind::Note | EventKind::Pulse =>
            false,
    }
}

/// The host of a host record's fields, after hosts that were declared before it.
pub fn host_entry(alloc: Global, hosts: &[Host], columns: Columns) -> Result<Host, LogFault>
    ensures entry { EntersBy result columns.entry (λ place. host_fault place hosts.now) host_with }
{
    let Columns {
        place,
        host: name,
        time: skew,
        name: gap,
    } = columns;
    let Some(new_name) = Name::new(alloc, name)? else {
        return Err(LogFault::HostName { place });
    };
    if names_no_host(name) {
        return Err(LogFault::HostName { place });
    }
    if declares(hosts, name) {
        return Err(LogFault::DuplicateHost { place });
    }
    if hosts.len() >= MAX_HOSTS {
        return Err(LogFault::TooManyHosts { place });
    }
    let Some(skew) = unsigned_number(skew, MAX_WRITTEN_SKEW) else {
        return Err(LogFault::Number { place });
    };
    let Some(gap) = unsigned_number(gap, MAX_GAP) else {
        return Err(LogFault::Number { place });
    };
    Ok(Host {
        name: new_name,
        skew,
        gap,
        least: MIN_DELAY,
        most: None,
    })
}

/// The row of an event record's fields, after hosts and rows that stand before it.
pub fn row_entry(
    alloc: Global,
    hosts: &[Host],
    rows: &[Row],
    kind: EventKind,
    columns: Columns,
) -> Result<Row, LogFault>
    requires { length hosts.now ≤ MAX_HOSTS }
    ensures entry { EntersBy result columns.entry (λ place. event_fault place hosts.now rows.now kind) (row_with hosts.now kind) }
{
    let Columns {
        place,
        host,
        time: local,
        name,
    } = columns;
    let Some(host) = place_of(hosts, host) else {
        return Err(LogFault::UnknownHost { place });
    };
    let Some(local) = signed_number(local, MAX_LOCAL) else {
        return Err(LogFault::Number { place });
    };
    let Some(new_name) = Name::new(alloc, name)? else {
        return Err(LogFault::Name { place });
    };
    if repeats(kind, rows, name) {
        return Err(LogFault::DoubleSend { place });
    }
    if rows.len() >= MAX_ROWS {
        return Err(LogFault::TooManyEvents { place });
    }
    Ok(Row {
        host: HostId::new(host as u32),
        local,
        act: kind.act(new_name),
    })
}

/// The resync of a resync record's fields, after hosts that were declared and so many rows.
pub fn resync_entry(hosts: &[Host], rows: usize, columns: Columns) -> Result<Resync, LogFault>
    requires hosts { length hosts.now ≤ MAX_HOSTS }
    requires rows { rows ≤ MAX_ROWS }
    ensures entry { EntersBy result columns.entry (λ place. resync_fault place hosts.now) (resync_with hosts.now rows) }
{
    let Columns {
        place,
        host,
        time: skew,
        name: gap,
    } = columns;
    let Some(number) = place_of(hosts, host) else {
        return Err(LogFault::UnknownHost { place });
    };
    let Some(skew) = unsigned_number(skew, MAX_WRITTEN_SKEW) else {
        return Err(LogFault::Number { place });
    };
    let Some(gap) = unsigned_number(gap, MAX_GAP) else {
        return Err(LogFault::Number { place });
    };
    Ok(Resync {
        place: rows as u32,
        host: HostId::new(number as u32),
        skew,
        gap,
    })
}

fn has_latency(latencies: &[Latency], host: &[u8]) -> bool
    ensures { result ≡ is_delayed latencies.now host.now }
{
    latencies.iter().any(|latency| latency.host.bytes() == host)
}

/// The latency of a latency record's fields, after hosts and latencies that stand before it.
pub fn latency_entry(
    alloc: Global,
    hosts: &[Host],
    latencies: &[Latency],
    columns: Columns,
) -> Result<Latency, LogFault>
    ensures entry { EntersBy result columns.entry (λ place. latency_fault place hosts.now latencies.now) latency_with }
{
    let Columns {
        place,
        host,
        time: least,
        name: most,
    } = columns;
    if place_of(hosts, host).is_none() {
        return Err(LogFault::UnknownHost { place });
    }
    if has_latency(latencies, host) {
        return Err(LogFault::DoubleLatency { place });
    }
    let Some(least) = least_of(least) else {
        return Err(LogFault::Number { place });
    };
    let Some(most) = greatest_of(most) else {
        return Err(LogFault::Number { place });
    };
    if most.is_some_and(|most| most < least) {
        return Err(LogFault::LatencyRange { place });
    }
    let host = Field::new(alloc, host)?;
    Ok(Latency { host, least, most })
}
