//! How a log comes about:
//!
//! - `build`: of the hosts and the rows, which are none from then on. `build_with`: of these and the resyncs.
//!   `build_read`: of all parts.
//! - `read`: of the text and what stands here.
//! - `records`: of the records, which are none from then on.
//! - `extra`: the last log with an extra bound: an event, another one, and the most that the first may come after it.
//! - `widen`: the last log with each skew so much greater.

use crate::logs::parts::Parts;
use crate::telling::{name_text, push_part, tell};
use log_read::{LogFault, RecordList, read_log, read_records};
use mt_model::{Act, Extra, Host, Log, MIN_DELAY, Name, Reading, Resync, Row};
use std::alloc::Global;
use table_case::{extra_of, number_of};

fn act_words(act: &Act) -> (&'static str, &Name) {
    match act {
        Act::Set(name) => ("set", name),
        Act::Clear(name) => ("clear", name),
        Act::Send(name) => ("send", name),
        Act::Recv(name) => ("recv", name),
        Act::Note(name) => ("note", name),
        Act::Pulse(name) => ("pulse", name),
    }
}

// Adds the delays of a host, where they are others than those of a host without a latency.
fn push_delays(line: &mut String, host: &Host) -> Option<()> {
    match host.most {
        Some(most) => write!(line, " {} {most}", host.least).ok(),
        None if host.least == MIN_DELAY => Some(()),
        None => write!(line, " {} inf", host.least).ok(),
    }
}

fn push_host(line: &mut String, host: &Host) -> Option<()> {
    let name = name_text(&host.name)?;
    push_part(line, format_args!("host {name} {} {}", host.skew, host.gap))?;
    push_delays(line, host)
}

fn push_resync(line: &mut String, resync: &Resync) -> Option<()> {
    let (place, host) = (resync.place, resync.host.get());
    push_part(
        line,
        format_args!("resync {place} {host} {} {}", resync.skew, resync.gap),
    )
}

fn push_clock(line: &mut String, clock: &Name) -> Option<()> {
    push_part(line, format_args!("clock {}", name_text(clock)?))
}

fn push_reading(line: &mut String, reading: &Reading) -> Option<()> {
    let (host, clock) = (reading.host.get(), reading.clock.get());
    push_part(
        line,
        format_args!("reading {} {host} {clock} {}", reading.place, reading.error),
    )
}

fn push_row(line: &mut String, row: &Row) -> Option<()> {
    let (word, name) = act_words(&row.act);
    let name = name_text(name)?;
    let host = row.host.get();
    push_part(line, format_args!("{word} {host} {} {name}", row.local))
}

fn push_extra(line: &mut String, extra: &Extra) -> Option<()> {
    let (e, f) = (extra.e.get(), extra.f.get());
    push_part(line, format_args!("extra {e} {f} {}", extra.c))
}

fn push_hosts(line: &mut String, hosts: &[Host]) -> Option<()> {
    for host in hosts {
        push_host(line, host)?;
    }
    Some(())
}

fn push_rows(line: &mut String, rows: &[Row]) -> Option<()> {
    for row in rows {
        push_row(line, row)?;
    }
    Some(())
}

fn push_resyncs(line: &mut String, resyncs: &[Resync]) -> Option<()> {
    for resync in resyncs {
        push_resync(line, resync)?;
    }
    Some(())
}

fn push_clocks(line: &mut String, clocks: &[Name]) -> Option<()> {
    for clock in clocks {
        push_clock(line, clock)?;
    }
    Some(())
}

fn push_readings(line: &mut String, readings: &[Reading]) -> Option<()> {
    for reading in readings {
        push_reading(line, reading)?;
    }
    Some(())
}

fn push_extras(line: &mut String, extras: &[Extra]) -> Option<()> {
    for extra in extras {
        push_extra(line, extra)?;
    }
    Some(())
}

/// Adds a log: its hosts, its rows, its resyncs, its clocks, the readings of them, and its extra bounds.
pub fn tell_log(alloc: Global, log: &Log, out: &mut Vec<u8>) -> Option<()> {
    let mut line = String::new(alloc);
    push_hosts(&mut line, log.hosts())?;
    push_rows(&mut line, log.rows())?;
    push_resyncs(&mut line, log.resyncs())?;
    push_clocks(&mut line, log.clocks())?;
    push_readings(&mut line, log.readings())?;
    push_extras(&mut line, log.extras())?;
    tell(alloc, out, line)
}

/// Adds what is wrong with a text.
pub fn tell_fault(alloc: Global, fault: LogFault, out: &mut Vec<u8>) -> Option<()> {
    let number = fault.number();
    match fault.record() {
        Some(record) => tell(
            alloc,
            out,
            format_args!("fault {number} at record {record}: {fault}"),
        ),
        None => tell(alloc, out, format_args!("fault {number}: {fault}")),
    }
}

/// Tells a log, if there is one.
pub fn tell_built(alloc: Global, log: &Option<Log>, out: &mut Vec<u8>) -> Option<()> {
    match log {
        Some(log) => tell_log(alloc, log, out),
        None => tell(alloc, out, "no log"),
    }
}

// Tells what was read, and the log of it.
fn told(alloc: Global, read: Result<Log, LogFault>, out: &mut Vec<u8>) -> Option<Option<Log>> {
    match read {
        Ok(log) => {
            tell_log(alloc, &log, out)?;
            Some(Some(log))
        }
        Err(fault) => {
            tell_fault(alloc, fault, out)?;
            Some(None)
        }
    }
}

fn read_text(alloc: Global, text: &[u8]) -> Option<Result<Log, LogFault>> {
    if text.len() < 1 << 31 {
        Some(read_log(alloc, text))
    } else {
        None
    }
}

fn read_list(alloc: Global, records: &RecordList) -> Option<Result<Log, LogFault>> {
    if records.len() < 1 << 31 {
        Some(read_records(alloc, records))
    } else {
        None
    }
}

// A log with an extra bound, if it takes it.
fn with_extra(log: Log, extra: &Extra) -> Option<Log> {
    if log.takes_extra(*extra) {
        log.with_extra(*extra).ok()
    } else {
        None
    }
}

// A log with greater skews, if it takes them.
fn widened(log: Log, skew: i128) -> Option<Log> {
    if log.takes_widening(skew) {
        Some(log.widened(skew))
    } else {
        None
    }
}

// The log that comes about of a log, if there is one.
fn changed(log: Log, word: &str, rest: &str) -> Option<Log> {
    match word {
        "extra" => with_extra(log, &extra_of(rest)?),
        "widen" => widened(log, number_of(rest)?),
        _ => None,
    }
}

/// The log that comes about of hosts and rows or of a log, if there is one.
pub fn built(
    alloc: Global,
    parts: &mut Parts,
    log: Option<Log>,
    word: &str,
    rest: &str,
) -> Option<Log> {
    match word {
        "build" => parts.build(alloc),
        "build_with" => parts.build_with(alloc),
        "build_read" => parts.build_read(alloc),
        _ => changed(log?, word, rest),
    }
}

/// Tells the log that is read of a text or of records, or what is wrong with it, and gives it.
pub fn read(
    alloc: Global,
    parts: &mut Parts,
    word: &str,
    rest: &str,
    out: &mut Vec<u8>,
) -> Option<Option<Log>> {
    match word {
        "read" => told(alloc, read_text(alloc, &parts.text(alloc, rest)?)?, out),
        _ => told(alloc, read_list(alloc, &parts.records(alloc))?, out),
    }
}
