//! The parts of which logs are made:
//!
//! - `host`: a host by its name, skew and gap, and maybe its least and greatest delay. `set`, `clear`, `send`, `recv`,
//!   `note`, `pulse`: a row by the place of its host, its local time and a name. `resync`: a resync by the rows before
//!   it, the place of its host, its skew and gap. `clock`: a clock by its name. `reading`: a reading by the rows before
//!   it, the places of its host and its clock, and its error. `bound`: an extra bound by an event, another one, and the
//!   most that the first may come after it.
//! - `line`: a line of a text; `empty`: the text has no line.
//! - `record`: a record by its fields, with `,` between two.

use crate::telling::{decoded, name_of, push_decoded};
use log_read::{Fields, RecordList};
use mt_model::{
    Act, ClockId, ExtraList, Host, HostId, HostList, Log, NameList, Reading, ReadingList, Resync,
    ResyncList, Row, RowList,
};
use std::alloc::Global;
use std::mem::replace;
use table_case::{extra_of, number_of, split_word};

/// Hosts, rows, resyncs, clocks, readings and extra bounds, a text, and records.
#[derive(Drop)]
pub struct Parts {
    hosts: HostList,
    rows: RowList,
    resyncs: ResyncList,
    clocks: NameList,
    readings: ReadingList,
    extras: ExtraList,
    text: Vec<u8>,
    records: RecordList,
}

// The least delay, which is 1 where there is no text.
fn least_of(text: &str) -> Option<u64> {
    if text.is_empty() {
        Some(1)
    } else {
        number_of(text)
    }
}

// The greatest delay, if any.
fn most_of(text: &str) -> Option<Option<u64>> {
    if text.is_empty() || text == "inf" {
        Some(None)
    } else {
        Some(Some(number_of(text)?))
    }
}

fn host_of(alloc: Global, text: &str) -> Option<Host> {
    let (name, rest) = split_word(text);
    let (skew, rest) = split_word(rest);
    let (gap, delays) = split_word(rest);
    let (least, most) = split_word(delays);
    Some(Host {
        name: name_of(alloc, name.as_bytes())?,
        skew: number_of(skew)?,
        gap: number_of(gap)?,
        least: least_of(least)?,
        most: most_of(most)?,
    })
}

fn resync_of(text: &str) -> Option<Resync> {
    let (place, rest) = split_word(text);
    let (host, rest) = split_word(rest);
    let (skew, gap) = split_word(rest);
    Some(Resync {
        place: number_of(place)?,
        host: HostId::new(number_of(host)?),
        skew: number_of(skew)?,
        gap: number_of(gap)?,
    })
}

fn reading_of(text: &str) -> Option<Reading> {
    let (place, rest) = split_word(text);
    let (host, rest) = split_word(rest);
    let (clock, error) = split_word(rest);
    Some(Reading {
        place: number_of(place)?,
        host: HostId::new(number_of(host)?),
        error: number_of(error)?,
        clock: ClockId::new(number_of(clock)?),
    })
}

fn act_of(alloc: Global, word: &str, name: &str) -> Option<Act> {
    let name = name_of(alloc, name.as_bytes())?;
    match word {
        "set" => Some(Act::Set(name)),
        "clear" => Some(Act::Clear(name)),
        "send" => Some(Act::Send(name)),
        "recv" => Some(Act::Recv(name)),
        "note" => Some(Act::Note(name)),
        "pulse" => Some(Act::Pulse(name)),
        _ => None,
    }
}

fn row_of(alloc: Global, word: &str, text: &str) -> Option<Row> {
    let (host, rest) = split_word(text);
    let (local, name) = split_word(rest);
    Some(Row {
        host: HostId::new(number_of(host)?),
        local: number_of(local)?,
        act: act_of(alloc, word, name)?,
    })
}

/// The fields of a record, with `,` between two; no text is no field.
pub fn fields_of(alloc: Global, text: &str) -> Option<Fields> {
    let mut fields = Fields::new(alloc);
    if text.is_empty() {
        return Some(fields);
    }
    for field in text.split(',') {
        fields.push(&decoded(alloc, field)?).ok()?;
    }
    Some(fields)
}

fn push_host(alloc: Global, hosts: &mut HostList, text: &str) -> Option<()> {
    hosts.push(host_of(alloc, text)?).ok()
}

fn push_clock(alloc: Global, clocks: &mut NameList, text: &str) -> Option<()> {
    clocks.push(name_of(alloc, text.as_bytes())?).ok()
}

fn push_row(alloc: Global, rows: &mut RowList, word: &str, text: &str) -> Option<()> {
    rows.push(row_of(alloc, word, text)?).ok()
}

fn push_text(text: &mut Vec<u8>, line: &str) -> Option<()> {
    push_decoded(line, text)?;
    text.push(b'\n').ok()
}

fn push_record(alloc: Global, records: &mut RecordList, text: &str) -> Option<()> {
    records.push(fields_of(alloc, text)?).ok()
}

impl Parts {
    /// No part.
    pub fn new(alloc: Global) -> Parts {
        Parts {
            hosts: HostList::new(alloc),
            rows: RowList::new(alloc),
            resyncs: ResyncList::new(alloc),
            clocks: NameList::new(alloc),
            readings: ReadingList::new(alloc),
            extras: ExtraList::new(alloc),
            text: Vec::new(alloc),
            records: RecordList::new(alloc),
        }
    }

    /// Takes in a part.
    pub fn take(&mut self, alloc: Global, word: &str, rest: &str) -> Option<()> {
        match word {
            "host" => push_host(alloc, &mut self.hosts, rest),
            "resync" => self.resyncs.push(resync_of(rest)?).ok(),
            "clock" => push_clock(alloc, &mut self.clocks, rest),
            "reading" => self.readings.push(reading_of(rest)?).ok(),
            "bound" => self.extras.push(extra_of(rest)?).ok(),
            "line" => push_text(&mut self.text, rest),
            "record" => push_record(alloc, &mut self.records, rest),
            "empty" => {
                self.text.clear();
                Some(())
            }
            _ => push_row(alloc, &mut self.rows, word, rest),
        }
    }

    /// The log of the hosts and the rows, which are none from then on.
    pub fn build(&mut self, alloc: Global) -> Option<Log> {
        let hosts = replace(&mut self.hosts, HostList::new(alloc));
        let rows = replace(&mut self.rows, RowList::new(alloc));
        Log::build(hosts, rows)
    }

    /// The log of the hosts, the rows and the resyncs, which are none from then on.
    pub fn build_with(&mut self, alloc: Global) -> Option<Log> {
        let hosts = replace(&mut self.hosts, HostList::new(alloc));
        let rows = replace(&mut self.rows, RowList::new(alloc));
        let resyncs = replace(&mut self.resyncs, ResyncList::new(alloc));
        Log::build_with(hosts, rows, resyncs)
    }

    /// The log of all parts, which are none from then on.
    pub fn build_read(&mut self, alloc: Global) -> Option<Log> {
        let hosts = replace(&mut self.hosts, HostList::new(alloc));
        let rows = replace(&mut self.rows, RowList::new(alloc));
        let resyncs = replace(&mut self.resyncs, ResyncList::new(alloc));
        let clocks = replace(&mut self.clocks, NameList::new(alloc));
        let readings = replace(&mut self.readings, ReadingList::new(alloc));
        let extras = replace(&mut self.extras, ExtraList::new(alloc));
        Log::build_read(hosts, rows, resyncs, clocks, readings, extras)
    }

    /// The text and another one.
    pub fn text(&self, alloc: Global, rest: &str) -> Option<Vec<u8>> {
        let mut text = self.text.to_vec(alloc).ok()?;
        push_decoded(rest, &mut text)?;
        Some(text)
    }

    /// The records, which are none from then on.
    pub fn records(&mut self, alloc: Global) -> RecordList {
        replace(&mut self.records, RecordList::new(alloc))
    }
}
