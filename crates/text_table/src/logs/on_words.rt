//! Questions that need no log:
//!
//! - `name`: whether bytes are a name.
//! - `id`: a number as that of a host, an event, a proposition and a node.
//! - `step`: a step of a walk.
//! - `fields`: the bytes of fields, of which there are none at first; `field`: those of one.
//! - `memory`: want of memory.
//! - `list`: integers with a space between two. They are pushed to a list, and told with the length before and after.
//! - `times`: a number and a text. The times are told, if the text is so many, else what is wrong with it.

use crate::logs::making::tell_fault;
use crate::logs::parts::fields_of;
use crate::logs::steps::step_of;
use crate::telling::{decoded, name_of, name_text, push_part, push_word, tell, tell_times};
use log_read::{Field, Fields, LogFault};
use mt_list::ListOf;
use mt_model::{EventId, HostId, NodeId, PropId};
use std::alloc::Global;
use table_case::{number_of, split_word};
use times_read::{TimesFault, read_times};

fn tell_name(alloc: Global, rest: &str, out: &mut Vec<u8>) -> Option<()> {
    match name_of(alloc, &decoded(alloc, rest)?) {
        Some(name) => tell(alloc, out, format_args!("name {}", name_text(&name)?)),
        None => tell(alloc, out, "no name"),
    }
}

fn tell_ids(alloc: Global, number: u32, out: &mut Vec<u8>) -> Option<()> {
    let host = HostId::new(number).get();
    let event = EventId::new(number).get();
    let proposition = PropId::new(number).get();
    let node = NodeId::new(number).get();
    tell(
        alloc,
        out,
        format_args!("{host} {event} {proposition} {node}"),
    )
}

// The numbers of bytes.
fn bytes_text(alloc: Global, bytes: &[u8]) -> Option<String> {
    let mut line = String::new(alloc);
    for byte in bytes {
        push_word(&mut line, *byte)?;
    }
    Some(line)
}

fn fields_text(alloc: Global, fields: &[Field]) -> Option<String> {
    let mut line = String::new(alloc);
    for field in fields {
        push_part(&mut line, bytes_text(alloc, field.bytes())?)?;
    }
    Some(line)
}

fn tell_fields(alloc: Global, rest: &str, out: &mut Vec<u8>) -> Option<()> {
    let none = Fields::new(alloc).as_slice().len();
    let fields = fields_of(alloc, rest)?;
    let count = fields.as_slice().len();
    let line = fields_text(alloc, fields.as_slice())?;
    tell(alloc, out, format_args!("{none}, then {count}: {line}"))
}

fn tell_field(alloc: Global, rest: &str, out: &mut Vec<u8>) -> Option<()> {
    let field = Field::new(alloc, &decoded(alloc, rest)?).ok()?;
    tell(alloc, out, bytes_text(alloc, field.bytes())?)
}

fn tell_times_fault(alloc: Global, fault: TimesFault, out: &mut Vec<u8>) -> Option<()> {
    let number = fault.number();
    tell(alloc, out, format_args!("fault {number}: {fault}"))
}

// Adds the times of a text.
fn tell_read_times(alloc: Global, rest: &str, out: &mut Vec<u8>) -> Option<()> {
    let (count, text) = split_word(rest);
    let count = number_of(count)?;
    if count >= 1 << 31 {
        return None;
    }
    match read_times(alloc, &decoded(alloc, text)?, count) {
        Ok(times) => tell_times(alloc, times.as_slice(), out),
        Err(fault) => tell_times_fault(alloc, fault, out),
    }
}

// The integers of a text, each pushed to a list.
fn list_of(alloc: Global, text: &str) -> Option<ListOf<i128>> {
    let mut list = ListOf::new(alloc);
    for word in text.split(' ') {
        list.push(number_of(word)?).ok()?;
    }
    Some(list)
}

fn tell_list(alloc: Global, rest: &str, out: &mut Vec<u8>) -> Option<()> {
    let list = list_of(alloc, rest)?;
    let none: ListOf<i128> = ListOf::new(list.allocator());
    let list = ListOf::from_vec(list.into_vec());
    tell(
        alloc,
        out,
        format_args!("{}, then {}", none.len(), list.len()),
    )?;
    tell_times(alloc, list.as_slice(), out)
}

// Tells want of memory, for logs and for times.
fn tell_memory(alloc: Global, out: &mut Vec<u8>) -> Option<()> {
    tell_fault(alloc, LogFault::Memory, out)?;
    tell_times_fault(alloc, TimesFault::Memory, out)
}

/// Answers a question.
pub fn answer(alloc: Global, word: &str, rest: &str, out: &mut Vec<u8>) -> Option<()> {
    match word {
        "name" => tell_name(alloc, rest, out),
        "id" => tell_ids(alloc, number_of(rest)?, out),
        "step" => tell(alloc, out, step_of(rest)?),
        "fields" => tell_fields(alloc, rest, out),
        "field" => tell_field(alloc, rest, out),
        "list" => tell_list(alloc, rest, out),
        "memory" => tell_memory(alloc, out),
        "times" => tell_read_times(alloc, rest, out),
        _ => None,
    }
}
