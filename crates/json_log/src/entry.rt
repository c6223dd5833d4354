//! The records that an entry of a log in JSON stands for.

ghost use Rattle.std.specs.Prelude.{◌≡◌, ◌||◌, Some, option_map};
ghost use Rattle.serde_json.specs.View.{items_view, view};
ghost use Rattle.json_log.specs.Entries.{bound_record, delays_of, latency_record, most_of, reading_record, record_of_kind, row_record, span_record};
ghost use Rattle.json_log.specs.Extends.{delays_in, most_text, record_in};

use crate::key::Key;
use crate::look::{has_exactly, items_at, text_at, whole, whole_at};
use serde_json::Value;

/// A part of a record behind its kind.
#[derive(Clone, Copy)]
pub enum Part<'a> {
    /// A word.
    Word(&'a str),
    /// A number, in decimal.
    Number(i128),
    /// No greatest delay.
    Infinite,
}

/// A record as a JSON value has it: its subject is a host, or the later row of a bound.
#[derive(Clone, Copy)]
pub struct Entry<'a> {
    pub kind: &'a str,
    pub subject: Part<'a>,
    pub number: i128,
    pub last: Part<'a>,
}

/// The least and the greatest delay of a latency.
#[derive(Clone, Copy)]
pub struct Delays {
    pub least: i128,
    pub most: Option<i128>,
}

/// The entry of a word that an object gives with the name at a key, its skew and its gap.
pub fn span<'a>(kind: &'a str, named: Key, value: &'a Value) -> Option<Entry<'a>>
    ensures { option_map record_in result ≡ span_record kind.now named (view value.now) }
{
    Some(Entry {
        kind,
        subject: Part::Word(text_at(value, named)?),
        number: whole_at(value, Key::Skew)?,
        last: Part::Number(whole_at(value, Key::Gap)?),
    })
}

// A greatest delay: null stands for none.
fn most(value: &Value) -> Option<Option<i128>>
    ensures { option_map most_text result ≡ most_of (view value.now) }
{
    if value.is_null() {
        Some(None)
    } else {
        Some(Some(whole(value)?))
    }
}

// The delays of an array of two values.
fn read_delays(items: &[Value]) -> Option<Delays>
    ensures { option_map delays_in result ≡ delays_of (items_view items.now) }
{
    match items {
        [least, greatest] => Some(Delays {
            least: whole(least)?,
            most: most(greatest)?,
        }),
        _ => None,
    }
}

/// The latency record of a host.
pub fn latency(value: &Value) -> Option<Entry<'_>>
    ensures { option_map record_in result ≡ latency_record (view value.now) }
{
    let host = text_at(value, Key::Name)?;
    let delays = read_delays(items_at(value, Key::Latency)?)?;
    Some(Entry {
        kind: "latency",
        subject: Part::Word(host),
        number: delays.least,
        last: match delays.most {
            Some(most) => Part::Number(most),
            None => Part::Infinite,
        },
    })
}

// The record of a row.
fn row<'a>(kind: &'a str, value: &'a Value) -> Option<Entry<'a>>
    ensures { option_map record_in result ≡ row_record kind.now (view value.now) }
{
    Some(Entry {
        kind,
        subject: Part::Word(text_at(value, Key::Host)?),
        number: whole_at(value, Key::Time)?,
        last: Part::Word(text_at(value, Key::Name)?),
    })
}

// The record of a reading of a clock.
fn reading<'a>(kind: &'a str, value: &'a Value) -> Option<Entry<'a>>
    ensures { option_map record_in result ≡ reading_record kind.now (view value.now) }
{
    Some(Entry {
        kind,
        subject: Part::Word(text_at(value, Key::Host)?),
        number: whole_at(value, Key::Error)?,
        last: Part::Word(text_at(value, Key::Clock)?),
    })
}

// The record of a bound.
fn bound<'a>(kind: &'a str, value: &'a Value) -> Option<Entry<'a>>
    ensures { option_map record_in result ≡ bound_record kind.now (view value.now) }
{
    Some(Entry {
        kind,
        subject: Part::Number(whole_at(value, Key::Later)?),
        number: whole_at(value, Key::Earlier)?,
        last: Part::Number(whole_at(value, Key::Most)?),
    })
}

/// The record of an event of a kind.
pub fn event<'a>(kind: &'a str, value: &'a Value) -> Option<Entry<'a>>
    ensures { option_map record_in result ≡ record_of_kind (view value.now) kind.now }
{
    if kind == "resync" {
        if has_exactly(value, &[Key::Kind, Key::Host, Key::Skew, Key::Gap]) {
            span(kind, Key::Host, value)
        } else {
            None
        }
    } else if kind == "clock" {
        if has_exactly(value, &[Key::Kind, Key::Host, Key::Clock, Key::Error]) {
            reading(kind, value)
        } else {
            None
        }
    } else if kind == "bound" {
        if has_exactly(value, &[Key::Kind, Key::Later, Key::Earlier, Key::Most]) {
            bound(kind, value)
        } else {
            None
        }
    } else if kind == "host" || kind == "latency" {
        None
    } else if has_exactly(value, &[Key::Kind, Key::Host, Key::Time, Key::Name]) {
        row(kind, value)
    } else {
        None
    }
}
