//! The text of a log.

ghost use Rattle.std.specs.Prelude.{◌≡◌, [], ◌∷◌, ◌++◌, ◌<◌, length, map, filter, All, IfOk, OnOk, Ok};
ghost use Rattle.std.specs.List.{flat_map, list_any};
ghost use Rattle.mt_model.specs.Log.{IsLog, IsPlain};
ghost use Rattle.log_read.specs.LogOf.{log_of};
ghost use Rattle.log_read.specs.LogText.{TextsReadBack, act_word, bound_fields, has_latency, has_pulse, header, host_fields, latency_fields, line_of, log_text, marks_at, reading_fields, readings_at, resync_fields, resyncs_at, row_fields, rows_from, version_for};

use crate::version::Version;
use mt_model::{Act, Extra, Host, Log, MIN_DELAY, Name, Reading, Resync, Row};
use std::alloc::{AllocError, Global};

fn word_of(act: &Act) -> &'static [u8]
    ensures { result.now ≡ act_word act.now }
{
    match act {
        Act::Set(_) => b"set",
        Act::Clear(_) => b"clear",
        Act::Send(_) => b"send",
        Act::Recv(_) => b"recv",
        Act::Note(_) => b"note",
        Act::Pulse(_) => b"pulse",
    }
}

// Adds a field and the byte that ends it.
fn push_field(text: &mut Vec<u8>, field: &[u8], end: u8) -> Result<(), AllocError>
    ensures { OnOk result (text.new.items ≡ text.old.items ++ field.now ++ end ∷ []) }
{
    text.extend_from_slice(field)?;
    text.push(end)?;
    Ok(())
}

// Adds the line of a record.
fn push_line(
    text: &mut Vec<u8>,
    kind: &[u8],
    host: &[u8],
    time: &[u8],
    name: &[u8],
) -> Result<(), AllocError>
    ensures { OnOk result (text.new.items ≡ text.old.items ++ line_of (kind.now ∷ host.now ∷ time.now ∷ name.now ∷ [])) }
{
    push_field(text, kind, b',')?;
    push_field(text, host, b',')?;
    push_field(text, time, b',')?;
    push_field(text, name, b'\n')
}

fn push_host(alloc: Global, text: &mut Vec<u8>, host: &Host) -> Result<(), AllocError>
    ensures { OnOk result (text.new.items ≡ text.old.items ++ line_of (host_fields host.now)) }
{
    let skew = host.skew.to_string(alloc)?;
    let gap = host.gap.to_string(alloc)?;
    push_line(
        text,
        b"host",
        host.name.bytes(),
        skew.as_bytes(),
        gap.as_bytes(),
    )
}

fn push_row(alloc: Global, text: &mut Vec<u8>, hosts: &[Host], row: &Row) -> Result<(), AllocError>
    requires { row.now.host < length hosts.now }
    ensures { OnOk result (text.new.items ≡ text.old.items ++ line_of (row_fields hosts.now row.now)) }
{
    let host = &hosts[row.host.get() as usize];
    let local = row.local.to_string(alloc)?;
    push_line(
        text,
        word_of(&row.act),
        host.name.bytes(),
        local.as_bytes(),
        row.act.name().bytes(),
    )
}

fn push_hosts(alloc: Global, text: &mut Vec<u8>, hosts: &[Host]) -> Result<(), AllocError>
    ensures { OnOk result (text.new.items ≡ text.old.items ++ flat_map line_of (map host_fields hosts.now)) }
{
    for host in hosts {
        push_host(alloc, text, host)?;
    }
    Ok(())
}

// Whether a host has other delays than one without a latency.
fn delays(host: &Host) -> bool
    ensures { result ≡ has_latency host.now }
{
    host.least != MIN_DELAY || host.most.is_some()
}

fn push_latency(alloc: Global, text: &mut Vec<u8>, host: &Host) -> Result<(), AllocError>
    ensures { OnOk result (text.new.items ≡ text.old.items ++ line_of (latency_fields host.now)) }
{
    let least = host.least.to_string(alloc)?;
    let name = host.name.bytes();
    match host.most {
        Some(most) => {
            let most = most.to_string(alloc)?;
            push_line(text, b"latency", name, least.as_bytes(), most.as_bytes())
        }
        None => push_line(text, b"latency", name, least.as_bytes(), b"inf"),
    }
}

// Adds the lines of the latencies that hosts have.
fn push_latencies(alloc: Global, text: &mut Vec<u8>, hosts: &[Host]) -> Result<(), AllocError>
    ensures { OnOk result (text.new.items ≡ text.old.items ++ flat_map line_of (map latency_fields (filter has_latency hosts.now))) }
{
    for host in hosts {
        if delays(host) {
            push_latency(alloc, text, host)?;
        }
    }
    Ok(())
}

fn push_resync(
    alloc: Global,
    text: &mut Vec<u8>,
    hosts: &[Host],
    resync: &Resync,
) -> Result<(), AllocError>
    requires { resync.now.host < length hosts.now }
    ensures { OnOk result (text.new.items ≡ text.old.items ++ line_of (resync_fields hosts.now resync.now)) }
{
    let host = &hosts[resync.host.get() as usize];
    let skew = resync.skew.to_string(alloc)?;
    let gap = resync.gap.to_string(alloc)?;
    push_line(
        text,
        b"resync",
        host.name.bytes(),
        skew.as_bytes(),
        gap.as_bytes(),
    )
}

// Adds the lines of the resyncs at a place.
fn push_resyncs_at(
    alloc: Global,
    text: &mut Vec<u8>,
    hosts: &[Host],
    resyncs: &[Resync],
    place: usize,
) -> Result<(), AllocError>
    requires { All (λ r. r.host < length hosts.now) resyncs.now }
    ensures { OnOk result (text.new.items ≡ text.old.items ++ flat_map line_of (resyncs_at hosts.now resyncs.now place)) }
{
    for resync in resyncs {
        if resync.place as usize == place {
            push_resync(alloc, text, hosts, resync)?;
        }
    }
    Ok(())
}

fn push_reading(
    alloc: Global,
    text: &mut Vec<u8>,
    hosts: &[Host],
    clocks: &[Name],
    reading: &Reading,
) -> Result<(), AllocError>
    requires host { reading.now.host < length hosts.now }
    requires clock { reading.now.clock < length clocks.now }
    ensures { OnOk result (text.new.items ≡ text.old.items ++ line_of (reading_fields hosts.now clocks.now reading.now)) }
{
    let host = &hosts[reading.host.get() as usize];
    let clock = &clocks[reading.clock.get() as usize];
    let error = reading.error.to_string(alloc)?;
    push_line(
        text,
        b"clock",
        host.name.bytes(),
        error.as_bytes(),
        clock.bytes(),
    )
}

// Adds the lines of the readings at a place.
fn push_readings_at(
    alloc: Global,
    text: &mut Vec<u8>,
    hosts: &[Host],
    clocks: &[Name],
    readings: &[Reading],
    place: usize,
) -> Result<(), AllocError>
    requires hosts { All (λ r. r.host < length hosts.now) readings.now }
    requires clocks { All (λ r. r.clock < length clocks.now) readings.now }
    ensures { OnOk result (text.new.items ≡ text.old.items ++ flat_map line_of (readings_at hosts.now clocks.now readings.now place)) }
{
    for reading in readings {
        if reading.place as usize == place {
            push_reading(alloc, text, hosts, clocks, reading)?;
        }
    }
    Ok(())
}

// Adds the lines of the resyncs at a place, and then of the readings there.
fn push_marks_at(
    alloc: Global,
    text: &mut Vec<u8>,
    log: &Log,
    place: usize,
) -> Result<(), AllocError>
    ensures { OnOk result (text.new.items ≡ text.old.items ++ flat_map line_of (marks_at log.now place)) }
{
    push_resyncs_at(alloc, text, log.hosts(), log.resyncs(), place)?;
    push_readings_at(
        alloc,
        text,
        log.hosts(),
        log.clocks(),
        log.readings(),
        place,
    )
}

// Adds the lines of the rows, each after the resyncs and readings at its place, and of those behind them.
fn push_rows(alloc: Global, text: &mut Vec<u8>, log: &Log) -> Result<(), AllocError>
    ensures { OnOk result (text.new.items ≡ text.old.items ++ flat_map line_of (rows_from log.now 0 log.now.rows)) }
{
    let rows = log.rows();
    for (place, row) in rows.iter().enumerate() {
        push_marks_at(alloc, text, log, place)?;
        push_row(alloc, text, log.hosts(), row)?;
    }
    push_marks_at(alloc, text, log, rows.len())
}

fn push_bound(alloc: Global, text: &mut Vec<u8>, bound: &Extra) -> Result<(), AllocError>
    ensures { OnOk result (text.new.items ≡ text.old.items ++ line_of (bound_fields bound.now)) }
{
    let later = bound.e.get().to_string(alloc)?;
    let earlier = bound.f.get().to_string(alloc)?;
    let most = bound.c.to_string(alloc)?;
    push_line(
        text,
        b"bound",
        later.as_bytes(),
        earlier.as_bytes(),
        most.as_bytes(),
    )
}

fn push_bounds(alloc: Global, text: &mut Vec<u8>, bounds: &[Extra]) -> Result<(), AllocError>
    ensures { OnOk result (text.new.items ≡ text.old.items ++ flat_map line_of (map bound_fields bounds.now)) }
{
    for bound in bounds {
        push_bound(alloc, text, bound)?;
    }
    Ok(())
}

fn any_delays(hosts: &[Host]) -> bool
    ensures { result ≡ list_any has_latency hosts.now }
{
    hosts.iter().any(delays)
}

fn is_pulse(row: &Row) -> bool
    ensures { result ≡ has_pulse row.now }
{
    matches!(row.act, Act::Pulse(_))
}

fn any_pulses(rows: &[Row]) -> bool
    ensures { result ≡ list_any has_pulse rows.now }
{
    rows.iter().any(is_pulse)
}

// The version that states a log.
fn version_of(log: &Log) -> Version
    ensures { result ≡ version_for log.now }
{
    if !log.readings().is_empty() || !log.extras().is_empty() {
        Version::Three
    } else if log.resyncs().is_empty() && !any_delays(log.hosts()) && !any_pulses(log.rows()) {
        Version::One
    } else {
        Version::Two
    }
}

// Adds the line of the header.
fn push_header(text: &mut Vec<u8>, version: Version) -> Result<(), AllocError>
    ensures { OnOk result (text.new.items ≡ text.old.items ++ line_of (header version)) }
{
    match version {
        Version::One => push_line(text, b"kind", b"host", b"time", b"name"),
        Version::Two => push_line(text, b"skewlog2", b"host", b"time", b"name"),
        Version::Three => push_line(text, b"skewlog3", b"host", b"time", b"name"),
    }
}

fn text_of(alloc: Global, log: &Log) -> Result<Vec<u8>, AllocError>
    ensures valid { IsLog log.now }
    ensures text { IfOk result (λ v. v.items ≡ log_text log.now) }
{
    let hosts = log.hosts();
    let mut text = Vec::new(alloc);
    push_header(&mut text, version_of(log))?;
    push_hosts(alloc, &mut text, hosts)?;
    push_latencies(alloc, &mut text, hosts)?;
    push_rows(alloc, &mut text, log)?;
    push_bounds(alloc, &mut text, log.extras())?;
    Ok(text)
}

/// The text of a log: the header, then a line for each host, for each latency and for each row, each
/// resync and each reading of a clock directly before the row that its place names, or last, at one place
/// the resyncs first, and then a line for each extra bound.
///
/// The header is `skewlog3,host,time,name` where there is a reading or an extra bound, else
/// `skewlog2,host,time,name` where there is a resync, a latency or a pulse, and else
/// `kind,host,time,name`. Fields are separated by one comma and never quoted, each line ends with one
/// newline byte, and numbers are decimal.
pub fn write_log(alloc: Global, log: &Log) -> Result<Vec<u8>, AllocError>
    requires { IsPlain log.now }
    ensures text { IfOk result (λ v. v.items ≡ log_text log.now) }
    ensures reads_back { IfOk result (λ v. log_of v.items ≡ Ok log.now) }
{
    text_of(alloc, log)
}

/// The text of a valid plain log reads back as the log.
pub fn texts_read_back()
    ensures { TextsReadBack }
{}
