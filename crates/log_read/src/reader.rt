//! The log that records, or the bytes of a file, are.

ghost use Rattle.std.specs.Prelude.{◌≡◌, ◌^◌, ◌<◌, ◌≤◌, [], length, Some, IfOk, position};
ghost use Rattle.mt_model.specs.Log.{IsPlain};
ghost use Rattle.log_read.specs.LogOf.{first_fault, is_unmatched, log_of, log_of_records, log_under_header, names_no_row as is_without_rows};
ghost use Rattle.log_read.specs.Reading.{Answers, Enters};
ghost use Rattle.log_read.specs.Records.{listed};

use crate::LogFault;
use crate::bound::{bound_of, is_without_row};
use crate::entry::sent;
use crate::fields::{Fields, RecordList};
use crate::kind::{EventKind, Kind};
use crate::reading::Reading;
use crate::records::all_records;
use crate::version::{Version, version_of};
use mt_model::{Log, Row};
use std::alloc::Global;

// What the records under the header list.
fn reading_of(alloc: Global, version: Version, records: &[Fields]) -> Result<Reading, LogFault>
    requires { length records.now ≤ 2 ^ 31 }
    ensures { Enters result (first_fault version [] records.now) (Some (listed records.now)) }
{
    let mut reading = Reading::new(alloc);
    for (i, fields) in records.iter().enumerate() {
        reading.add(alloc, version, i as u32 + 2, fields)?;
    }
    Ok(reading)
}

// Whether the record receives a message that no row sends.
fn receives_unsent(rows: &[Row], fields: &Fields) -> bool
    ensures { result ≡ is_unmatched rows.now fields.now }
{
    match fields.as_slice() {
        [word, _, _, name] => match Kind::named(word.bytes()) {
            Some(Kind::Event(EventKind::Recv)) => !sent(rows, name.bytes()),
            _ => false,
        },
        _ => false,
    }
}

fn first_unsent(rows: &[Row], records: &[Fields]) -> Option<usize>
    ensures { result ≡ position (is_unmatched rows.now) records.now }
{
    records
        .iter()
        .position(|fields| receives_unsent(rows, fields))
}

// Whether the record states a bound of a row that so many rows lack.
fn names_no_row(rows: usize, fields: &Fields) -> bool
    ensures { result ≡ is_without_rows rows fields.now }
{
    match fields.as_slice() {
        [word, later, earlier, most] => match Kind::named(word.bytes()) {
            Some(Kind::Bound) => match bound_of(later.bytes(), earlier.bytes(), most.bytes()) {
                Some(bound) => is_without_row(bound, rows),
                None => false,
            },
            _ => false,
        },
        _ => false,
    }
}

fn first_without_row(rows: usize, records: &[Fields]) -> Option<usize>
    ensures { result ≡ position (is_without_rows rows) records.now }
{
    records.iter().position(|fields| names_no_row(rows, fields))
}

fn log_under(alloc: Global, version: Version, records: &[Fields]) -> Result<Log, LogFault>
    requires { length records.now ≤ 2 ^ 31 }
    ensures { Answers result (log_under_header version records.now) }
{
    let reading = reading_of(alloc, version, records)?;
    if let Some(i) = first_unsent(reading.rows(), records) {
        return Err(LogFault::UnmatchedReceive {
            place: i as u32 + 2,
        });
    }
    if reading.rows().is_empty() {
        return Err(LogFault::NoEvent);
    }
    if let Some(i) = first_without_row(reading.rows().len(), records) {
        return Err(LogFault::NoRow {
            place: i as u32 + 2,
        });
    }
    Ok(reading.finish())
}

fn log_in(alloc: Global, records: &[Fields]) -> Result<Log, LogFault>
    requires { length records.now ≤ 2 ^ 31 }
    ensures { Answers result (log_of_records records.now) }
{
    match records {
        [] => Err(LogFault::Header { place: 1 }),
        [header, rest @ ..] => match version_of(header) {
            Some(version) => log_under(alloc, version, rest),
            None => Err(LogFault::Header { place: 1 }),
        },
    }
}

/// The log that records list, the first of them the header `kind,host,time,name`, or
/// `skewlog2,host,time,name` in version 2, or `skewlog3,host,time,name` in version 3.
///
/// A record of `host`, a name, a skew and a gap declares the next host. One of `set`, `clear`,
/// `send`, `recv` or `note`, a declared host, a local time and a name gives the next row. From version 2
/// on one of `pulse` does so too, one of `resync`, a declared host, a skew and a gap says what holds of
/// the host's clock from there on, and one of `latency`, a declared host, a least delay and a greatest one
/// or `inf` says how long what the host receives took. In version 3 one of `clock`, a declared host, an
/// error and a name says that the host's stamps are readings of that clock from there on, each off by at
/// most the error, and one of `bound`, the numbers of two rows from 0 and a number says by how much the
/// first of them is later than the second at most. Skews, gaps, delays, errors, bounds and local times are
/// decimal numbers in the log's one unit of time.
///
/// The fault is that of the first faulty record, else of the first receive whose message is sent
/// nowhere, else that there is no row, else of the first bound of a row that there isn't; or it is want of
/// memory.
pub fn read_records(alloc: Global, records: &RecordList) -> Result<Log, LogFault>
    requires { length records.now < 2 ^ 31 }
    ensures answer { Answers result (log_of_records records.now) }
    ensures plain { IfOk result IsPlain }
{
    log_in(alloc, records.as_slice())
}

/// The log that the bytes of a file are, read as records of comma-separated fields.
///
/// A field may stand in double quotes. Blank lines, and a byte order mark at the start, are passed over
/// and not counted. The faults are those of `read_records`.
pub fn read_log(alloc: Global, bytes: &[u8]) -> Result<Log, LogFault>
    requires { length bytes.now < 2 ^ 31 }
    ensures answer { Answers result (log_of bytes.now) }
    ensures plain { IfOk result IsPlain }
{
    let records = all_records(alloc, bytes)?;
    log_in(alloc, records.as_slice())
}
