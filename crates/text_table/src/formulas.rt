//! How formulas are read, written and numbered:
//!
//! - `=`: the nodes are numbered from 0 again, as if no formula stood before.
//! - `+`: a number and a text, which stands so often in front of the next formula.
//! - `&`: a depth and a text. The full conjunction of that depth stands in front of the next formula: the text 2 to
//!   the depth times, `#` in it being the number of the time, from 0.
//! - `?`: a formula. Its one text is told, with the nodes that it adds to those before and the node of the whole.
//! - `*`: a formula. The node of the whole is told, or that there are too many; and how many there are then.
//! - `:`: a formula. Its one text is told.
//! - `@`: an index and a formula. The byte of the host of the proposition of that index is told.
//! - `$`: a formula, each operator after its operands and with a space between two words. Its one text is told.
//! - `.`: the propositions are told, by their numbers.
//! - `~`: want of memory is told.
//!
//! Where a text is no formula, its fault is told, by number, byte and words. `%` with two hexadecimal digits is the
//! byte of that number. Each line is written again before what it asks for.

mod nodes;
mod trees;

use crate::formulas::nodes::{push_count, push_nodes_of, push_propositions};
use crate::formulas::trees::tree_of;
use crate::telling::{push_decoded, push_numbered};
use formula_arena::{Arena, ArenaFault};
use mt_model::Formula;
use mtl_parse::{FormulaFault, parse_formula, place_of, print_formula};
use std::alloc::Global;
use std::mem::replace;
use table_case::{Table, number_of, push_line, push_marked, push_shown, split_word, text_of};

/// What stands in front of the next formula, and the nodes of the formulas before.
#[derive(Drop)]
pub struct Formulas {
    front: Vec<u8>,
    arena: Arena,
}

fn push_fault(alloc: Global, fault: FormulaFault, out: &mut Vec<u8>) -> Option<()> {
    let number = fault.number();
    match fault.byte() {
        Some(byte) => push_shown(
            alloc,
            out,
            format_args!("fault {number} at byte {byte}: {fault}"),
        ),
        None => push_shown(alloc, out, format_args!("fault {number}: {fault}")),
    }
}

// Adds the one text of a formula.
fn push_text(alloc: Global, f: &Formula, out: &mut Vec<u8>) -> Option<()> {
    push_line(out, &print_formula(alloc, f).ok()?)
}

// Adds the byte of a host of a formula.
fn push_place(alloc: Global, index: u32, text: &[u8], out: &mut Vec<u8>) -> Option<()> {
    if text.len() >= 1 << 31 {
        return None;
    }
    let _formula = parse_formula(alloc, text).ok()?;
    match place_of(text, index) {
        Some(byte) => push_shown(alloc, out, format_args!("byte {byte}")),
        None => push_line(out, b"no such proposition"),
    }
}

// Adds the one text of the formula that a tree is.
fn push_tree(alloc: Global, text: &[u8], out: &mut Vec<u8>) -> Option<()> {
    match Formula::new(tree_of(alloc, text_of(text)?)?) {
        Some(f) => push_text(alloc, &f, out),
        None => push_line(out, b"no formula"),
    }
}

// Adds a letter so many times.
fn push_times(letter: char, count: u32, out: &mut String) -> Option<()> {
    for _ in 0..count {
        out.push(letter).ok()?;
    }
    Some(())
}

// Adds a part of a full conjunction. What opens before it and closes after it is told by the zeros at the end of its
// number.
fn push_conjunct(depth: u32, number: u32, text: &str, out: &mut String) -> Option<()> {
    if number == 0 {
        push_times('(', depth, out)?;
    } else {
        out.push_str(" & ").ok()?;
        push_times('(', number.trailing_zeros(), out)?;
    }
    push_numbered(text, number, out)?;
    push_times(')', number.checked_add(1)?.trailing_zeros(), out)
}

// The full conjunction of a depth.
fn conjunction(alloc: Global, depth: u32, text: &str) -> Option<String> {
    let mut conjunction = String::new(alloc);
    for number in 0..1u32.checked_shl(depth)? {
        push_conjunct(depth, number, text, &mut conjunction)?;
    }
    Some(conjunction)
}

fn push_conjunction(alloc: Global, line: &str, out: &mut Vec<u8>) -> Option<()> {
    let (depth, text) = split_word(line);
    let conjunction = conjunction(alloc, number_of(depth)?, text)?;
    out.extend_from_slice(conjunction.as_bytes()).ok()
}

// Adds the bytes of a text so many times.
fn push_repeated(line: &str, out: &mut Vec<u8>) -> Option<()> {
    let (count, text) = split_word(line);
    let count: u32 = number_of(count)?;
    for _ in 0..count {
        push_decoded(text, out)?;
    }
    Some(())
}

// Adds what a line asks for of a formula.
fn answer(
    alloc: Global,
    mark: u8,
    f: &Formula,
    arena: &mut Arena,
    out: &mut Vec<u8>,
) -> Option<()> {
    match mark {
        b'?' => {
            push_text(alloc, f, out)?;
            push_nodes_of(alloc, f, arena, out)
        }
        b'*' => push_count(alloc, f, arena, out),
        _ => push_text(alloc, f, out),
    }
}

// Adds what a line asks for of a text, which may be a formula.
fn answer_text(
    alloc: Global,
    mark: u8,
    text: &[u8],
    arena: &mut Arena,
    out: &mut Vec<u8>,
) -> Option<()> {
    if text.len() >= 1 << 31 {
        return None;
    }
    match parse_formula(alloc, text) {
        Ok(f) => answer(alloc, mark, &f, arena, out),
        Err(fault) => push_fault(alloc, fault, out),
    }
}

// What stands in front and then a text. Nothing stands in front from then on.
fn whole(alloc: Global, front: &mut Vec<u8>, text: &str) -> Option<Vec<u8>> {
    push_decoded(text, front)?;
    Some(replace(front, Vec::new(alloc)))
}

impl Formulas {
    /// Nothing in front, and no node.
    pub fn new(alloc: Global) -> Formulas {
        Formulas {
            front: Vec::new(alloc),
            arena: Arena::new(alloc),
        }
    }

    fn push_place(&mut self, alloc: Global, line: &str, out: &mut Vec<u8>) -> Option<()> {
        let (index, text) = split_word(line);
        let whole = whole(alloc, &mut self.front, text)?;
        push_place(alloc, number_of(index)?, &whole, out)
    }

    // Adds what a line asks for of a text.
    fn answer(&mut self, alloc: Global, mark: u8, line: &str, out: &mut Vec<u8>) -> Option<()> {
        let whole = whole(alloc, &mut self.front, line)?;
        match mark {
            b'$' => push_tree(alloc, &whole, out),
            b'?' | b'*' | b':' => answer_text(alloc, mark, &whole, &mut self.arena, out),
            _ => None,
        }
    }
}

impl Table for Formulas {
    fn take(&mut self, alloc: Global, mark: u8, text: &[u8], out: &mut Vec<u8>) -> Option<()> {
        push_marked(out, mark, text)?;
        let line = text_of(text)?;
        match mark {
            b'=' => {
                self.arena = Arena::new(alloc);
                Some(())
            }
            b'+' => push_repeated(line, &mut self.front),
            b'&' => push_conjunction(alloc, line, &mut self.front),
            b'@' => self.push_place(alloc, line, out),
            b'.' => push_propositions(alloc, &self.arena, out),
            b'~' => {
                push_fault(alloc, FormulaFault::Memory, out)?;
                push_shown(alloc, out, format_args!("nodes: {}", ArenaFault::Memory))
            }
            _ => self.answer(alloc, mark, line, out),
        }
    }
}
