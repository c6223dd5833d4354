//! The records that a JSON value stands for.

ghost use Rattle.std.specs.Prelude.{◌≡◌, [], ◌∷◌, MatchResult, Some, IfOk, option_map, string_bytes};
ghost use Rattle.log_read.specs.LogText.{header as header_of};
ghost use Rattle.serde_json.specs.View.{items_view, view};
ghost use Rattle.json_log.specs.Entries.{alone, event_records, host_records, is_of_three};
ghost use Rattle.json_log.specs.Extends.{Extends, Stops, part_text, record_in};
ghost use Rattle.json_log.specs.JsonLogOf.{any_in, records_in, records_of as records_due, version_if};

use crate::entry::{Entry, Part, event, latency, span};
use crate::fault::JsonFault;
use crate::key::Key;
use crate::look::{has_exactly, items_at, text_at};
use log_read::{Fields, RecordList};
use serde_json::Value;
use std::alloc::{AllocError, Global};

// The record of four fields.
fn fields(
    alloc: Global,
    word: &str,
    subject: &str,
    number: &str,
    last: &str,
) -> Result<Fields, AllocError>
    ensures { IfOk result (λ r. r ≡ word.now ∷ subject.now ∷ number.now ∷ last.now ∷ []) }
{
    let mut fields = Fields::new(alloc);
    fields.push(word.as_bytes())?;
    fields.push(subject.as_bytes())?;
    fields.push(number.as_bytes())?;
    fields.push(last.as_bytes())?;
    Ok(fields)
}

// A part of a record as a field.
fn part_field(alloc: Global, part: Part<'_>) -> Result<String, AllocError>
    ensures { IfOk result (λ s. string_bytes s ≡ part_text part.entry) }
{
    match part {
        Part::Word(text) => String::from_str(alloc, text),
        Part::Number(n) => n.to_string(alloc),
        Part::Infinite => String::from_str(alloc, "inf"),
    }
}

fn record(alloc: Global, entry: Entry<'_>) -> Result<Fields, AllocError>
    ensures { IfOk result (λ r. r ≡ record_in entry.entry) }
{
    let subject = part_field(alloc, entry.subject)?;
    let number = entry.number.to_string(alloc)?;
    let last = part_field(alloc, entry.last)?;
    fields(
        alloc,
        entry.kind,
        subject.as_str(),
        number.as_str(),
        last.as_str(),
    )
}

// Adds the record of an entry, where there is one.
fn add(alloc: Global, records: &mut RecordList, entry: Option<Entry<'_>>) -> Result<(), JsonFault>
    ensures { Extends result (alone (option_map record_in entry.entry)) records.old records.new }
{
    let Some(entry) = entry else {
        return Err(JsonFault::Shape);
    };
    records.push(record(alloc, entry)?)?;
    Ok(())
}

// Adds the records of an entry of `hosts`.
fn add_host(alloc: Global, records: &mut RecordList, host: &Value) -> Result<(), JsonFault>
    ensures { Extends result (host_records (view host.now)) records.old records.new }
{
    if has_exactly(host, &[Key::Name, Key::Skew, Key::Gap]) {
        add(alloc, records, span("host", Key::Name, host))
    } else if has_exactly(host, &[Key::Name, Key::Skew, Key::Gap, Key::Latency]) {
        add(alloc, records, span("host", Key::Name, host))?;
        add(alloc, records, latency(host))
    } else {
        Err(JsonFault::Shape)
    }
}

// The record of an entry of `events`.
fn event_entry(value: &Value) -> Option<Entry<'_>>
    ensures { alone (option_map record_in result) ≡ event_records (view value.now) }
{
    event(text_at(value, Key::Kind)?, value)
}

// Adds the records of an entry of `events`.
fn add_event(alloc: Global, records: &mut RecordList, value: &Value) -> Result<(), JsonFault>
    ensures { Extends result (event_records (view value.now)) records.old records.new }
{
    add(alloc, records, event_entry(value))
}

// Adds the records of the entries of `hosts`.
fn add_hosts(alloc: Global, records: &mut RecordList, hosts: &[Value]) -> Result<(), JsonFault>
    ensures { Extends result (records_in host_records (items_view hosts.now)) records.old records.new }
{
    for host in hosts {
        add_host(alloc, records, host)?;
    }
    Ok(())
}

// Adds the records of the entries of `events`.
fn add_events(alloc: Global, records: &mut RecordList, events: &[Value]) -> Result<(), JsonFault>
    ensures { Extends result (records_in event_records (items_view events.now)) records.old records.new }
{
    for event in events {
        add_event(alloc, records, event)?;
    }
    Ok(())
}

// Whether an event is of a kind that only version 3 of log files has.
fn needs_three(event: &Value) -> bool
    ensures { result ≡ is_of_three (view event.now) }
{
    match text_at(event, Key::Kind) {
        Some(kind) => kind == "clock" || kind == "bound",
        None => false,
    }
}

fn any_needs_three(events: &[Value]) -> bool
    ensures { result ≡ any_in is_of_three (items_view events.now) }
{
    for event in events {
        if needs_three(event) {
            return true;
        }
    }
    false
}

// The header of version 3, or else of version 2.
fn header(alloc: Global, third: bool) -> Result<Fields, AllocError>
    ensures { IfOk result (λ r. r ≡ header_of (version_if third)) }
{
    if third {
        fields(alloc, "skewlog3", "host", "time", "name")
    } else {
        fields(alloc, "skewlog2", "host", "time", "name")
    }
}

// The header alone.
fn headed(alloc: Global, third: bool) -> Result<RecordList, AllocError>
    ensures { IfOk result (λ rs. rs ≡ header_of (version_if third) ∷ []) }
{
    let mut records = RecordList::new(alloc);
    records.push(header(alloc, third)?)?;
    Ok(records)
}

/// The records that a value stands for: the header, then those of its hosts, and then those of its
/// events; the fault is that it has not the shape, or want of memory.
pub fn records_of(alloc: Global, value: &Value) -> Result<RecordList, JsonFault>
    ensures { MatchResult result (λ rs. records_due (view value.now) ≡ Some rs) (Stops (records_due (view value.now))) }
{
    if !has_exactly(value, &[Key::Hosts, Key::Events]) {
        return Err(JsonFault::Shape);
    }
    let hosts = items_at(value, Key::Hosts).ok_or(JsonFault::Shape)?;
    let events = items_at(value, Key::Events).ok_or(JsonFault::Shape)?;
    let mut records = headed(alloc, any_needs_three(events))?;
    add_hosts(alloc, &mut records, hosts)?;
    add_events(alloc, &mut records, events)?;
    Ok(records)
}
