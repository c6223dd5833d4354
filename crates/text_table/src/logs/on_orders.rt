//! Questions on which events of a log happened before which:
//!
//! - `clocks`: the vector clock of each event, or the events of a cycle, in rising order.
//! - `after`: the events before which an event happened, or `none`.

use crate::telling::{push_part, push_word, tell};
use happened_before::{Order, OrderFault};
use mt_model::{EventId, Log};
use std::alloc::Global;
use table_case::number_of;

fn tell_clock(alloc: Global, clock: &[u32], out: &mut Vec<u8>) -> Option<()> {
    let mut line = String::new(alloc);
    for number in clock {
        push_word(&mut line, *number)?;
    }
    tell(alloc, out, line)
}

fn tell_clocks(alloc: Global, order: &Order, out: &mut Vec<u8>) -> Option<()> {
    for e in 0..u32::try_from(order.events()).ok()? {
        if (e as usize) < order.events() {
            tell_clock(alloc, order.clock(EventId::new(e)), out)?;
        }
    }
    Some(())
}

fn tell_cycle(alloc: Global, events: &[EventId], out: &mut Vec<u8>) -> Option<()> {
    let mut line = String::new(alloc);
    for event in events {
        push_word(&mut line, event.get())?;
    }
    tell(alloc, out, format_args!("cycle: {line}"))
}

fn tell_order(alloc: Global, log: &Log, out: &mut Vec<u8>) -> Option<()> {
    match Order::build(alloc, log) {
        Ok(order) => tell_clocks(alloc, &order, out),
        Err(OrderFault::Cycle(walk)) => {
            let mut events = walk.into_vec();
            events.sort().ok()?;
            tell_cycle(alloc, &events, out)
        }
        Err(OrderFault::Memory) => None,
    }
}

// Whether an event happened before another one, if there are both.
fn is_before(order: &Order, e: u32, f: u32) -> Option<bool> {
    if (e as usize) < order.events() && (f as usize) < order.events() {
        Some(order.before(EventId::new(e), EventId::new(f)))
    } else {
        None
    }
}

fn tell_after(alloc: Global, order: &Order, e: u32, out: &mut Vec<u8>) -> Option<()> {
    let mut line = String::new(alloc);
    for f in 0..u32::try_from(order.events()).ok()? {
        if is_before(order, e, f)? {
            push_part(&mut line, f)?;
        }
    }
    tell(
        alloc,
        out,
        if line.is_empty() {
            "none"
        } else {
            line.as_str()
        },
    )
}

/// Answers a question.
pub fn answer(alloc: Global, word: &str, rest: &str, log: &Log, out: &mut Vec<u8>) -> Option<()> {
    match word {
        "clocks" => tell_order(alloc, log, out),
        "after" => {
            let order = Order::build(alloc, log).ok()?;
            tell_after(alloc, &order, number_of(rest)?, out)
        }
        _ => None,
    }
}
