//! The section on systems of difference constraints.

use crate::edges::{Numbered, numbered_of};
use crate::writing::push_items;
use neg_cycle::{Outcome, is_system, solve};
use std::alloc::Global;
use table_case::{push_line, push_marked, text_of};

// Adds the numbers that meet each edge, or the places of a cycle.
fn push_outcome(alloc: Global, system: &Numbered, out: &mut Vec<u8>) -> Option<()> {
    if !is_system(system.number, &system.edges) {
        return None;
    }
    match solve(alloc, system.number, &system.edges).ok()? {
        Outcome::Potential(numbers) => push_items(alloc, "numbers", numbers.as_slice(), out),
        Outcome::Cycle(places) => push_items(alloc, "cycle", places.as_slice(), out),
    }
}

// Adds whether a system is within the limits.
fn push_limits(system: &Numbered, out: &mut Vec<u8>) -> Option<()> {
    if is_system(system.number, &system.edges) {
        push_line(out, b"within")
    } else {
        push_line(out, b"outside")
    }
}

// Adds what is asked of a system.
fn answer(alloc: Global, mark: u8, text: &str, out: &mut Vec<u8>) -> Option<()> {
    let system = numbered_of(alloc, text)?;
    if mark == b'?' {
        push_outcome(alloc, &system, out)
    } else {
        push_limits(&system, out)
    }
}

/// Takes in a line, and adds what it asks for.
pub fn take(alloc: Global, mark: u8, text: &[u8], out: &mut Vec<u8>) -> Option<()> {
    match mark {
        b'?' | b'!' => {
            push_marked(out, mark, text)?;
            answer(alloc, mark, text_of(text)?, out)
        }
        _ => Some(()),
    }
}
