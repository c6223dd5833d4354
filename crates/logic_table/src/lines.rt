//! The section on the texts of derivations, on trimming them, and on walks of steps.

ghost use Rattle.std.specs.Prelude.{All};
ghost use Rattle.proof_log.specs.Spelled.{IsSpelled};

use crate::case::LogicCase;
use crate::edges::edge_of;
use crate::rules::rule_of;
use crate::writing::push_items;
use axiom_rules::{Atom, Literal};
use mt_model::Log;
use neg_cycle::Edge;
use proof_check::check_cycle;
use proof_log::{Hint, Hints, Line, LineFault, Lits, has_spelling, print_lines, read_lines};
use proof_trim::{TrimFault, trim};
use std::alloc::Global;
use table_case::{number_of, push_line, push_marked, split_word, text_of};

// Adds the lines of a derivation as they are printed, or the number of the first faulty one.
fn push_printed(alloc: Global, text: &[u8], out: &mut Vec<u8>) -> Option<()> {
    if text.len() >= 1 << 31 {
        return None;
    }
    match read_lines(alloc, text) {
        Ok(lines) => {
            let printed = print_lines(alloc, lines.as_slice()).ok()?;
            out.extend_from_slice(&printed).ok()
        }
        Err(LineFault::Syntax { line }) => push_items(alloc, "syntax", &[line], out),
        Err(LineFault::Memory) => None,
    }
}

// Adds the lines that the last of these needs, as they are printed, or why they can't be trimmed.
fn push_trimmed(alloc: Global, lines: &[Line], out: &mut Vec<u8>) -> Option<()>
    requires { All IsSpelled lines.now }
{
    if lines.len() >= (1 << 32) - 1 {
        return None;
    }
    match trim(alloc, lines) {
        Ok(left) => {
            let printed = print_lines(alloc, left.as_slice()).ok()?;
            out.extend_from_slice(&printed).ok()
        }
        Err(TrimFault::Empty) => push_line(out, b"empty"),
        Err(TrimFault::Hint { line }) => push_items(alloc, "forward", &[line], out),
        Err(TrimFault::Memory) => None,
    }
}

// Adds that of the lines of a derivation.
fn push_trimmed_of(alloc: Global, text: &[u8], out: &mut Vec<u8>) -> Option<()> {
    if text.len() >= 1 << 31 {
        return None;
    }
    let lines = read_lines(alloc, text).ok()?;
    push_trimmed(alloc, lines.as_slice(), out)
}

// Whether the sign of a text is `+`, and what stands behind it.
fn sign_of(text: &str) -> Option<(bool, &str)> {
    match text.strip_prefix("-") {
        Some(rest) => Some((false, rest)),
        None => text.strip_prefix("+").map(|rest| (true, rest)),
    }
}

// An order literal: its sign, its two events, and its bound.
fn literal_of(text: &str) -> Option<Literal> {
    let (positive, numbers) = sign_of(text)?;
    let Edge { from, to, bound } = edge_of(numbers)?;
    let atom = Atom::Order {
        e: from,
        f: to,
        c: bound,
    };
    Some(Literal { atom, positive })
}

fn hint_of(text: &str) -> Option<Hint> {
    match split_word(text) {
        ("line", number) => Some(Hint::Line(number_of(number)?)),
        ("rule", rule) => Some(Hint::Rule(rule_of(rule)?)),
        _ => None,
    }
}

// The line with these two literals and this hint.
fn line_of(alloc: Global, lits: [Literal; 2], hint: Hint) -> Option<Line> {
    let lits = Lits::from_vec(Vec::from_array(alloc, lits).ok()?);
    let hints = Hints::from_vec(Vec::from_array(alloc, [hint]).ok()?);
    Some(Line::Learn { lits, hints })
}

// Adds whether the line of two order literals and a hint has a spelling.
fn push_spelled(alloc: Global, text: &str, out: &mut Vec<u8>) -> Option<()> {
    let (first, rest) = text.split_once("; ")?;
    let (second, hint) = rest.split_once("; ")?;
    let lits = [literal_of(first)?, literal_of(second)?];
    let line = line_of(alloc, lits, hint_of(hint)?)?;
    if has_spelling(alloc, &line).ok()? {
        push_line(out, b"spelled")
    } else {
        push_line(out, b"not spelled")
    }
}

// Adds whether the walk of a Cycle line is a cycle of the log's bounds, or else the step at which it stops to be one.
fn push_walk(alloc: Global, log: &Log, line: &Line, out: &mut Vec<u8>) -> Option<()> {
    match line {
        Line::Cycle(steps) if steps.len() < 1 << 32 => match check_cycle(log, steps.as_slice()) {
            Some(step) => push_items(alloc, "stops at", &[step], out),
            None => push_line(out, b"cycle"),
        },
        _ => None,
    }
}

// Adds that of a line over the log of a case.
fn push_walk_of(alloc: Global, case: &LogicCase, line: &Line, out: &mut Vec<u8>) -> Option<()> {
    let log = case.log(alloc)?;
    push_walk(alloc, &log, line, out)
}

// Adds that of the first line of a derivation.
fn push_first_walk(alloc: Global, case: &LogicCase, out: &mut Vec<u8>) -> Option<()> {
    let lines = case.lines(alloc)?.ok()?;
    push_walk_of(alloc, case, lines.as_slice().first()?, out)
}

// Adds what is asked of a derivation.
fn answer(alloc: Global, case: &LogicCase, mark: u8, text: &[u8], out: &mut Vec<u8>) -> Option<()> {
    match mark {
        b'?' => push_printed(alloc, case.derivation(), out),
        b'*' => push_first_walk(alloc, case, out),
        b'%' => push_trimmed_of(alloc, case.derivation(), out),
        _ => push_spelled(alloc, text_of(text)?, out),
    }
}

/// Takes in a line of the section, and adds what it asks for. After an answer the derivation is empty.
pub fn take(
    alloc: Global,
    case: &mut LogicCase,
    mark: u8,
    text: &[u8],
    out: &mut Vec<u8>,
) -> Option<()> {
    if let b'?' | b'*' | b'%' | b'!' = mark {
        push_marked(out, mark, text)?;
        answer(alloc, case, mark, text, out)?;
        case.clear_derivation();
        Some(())
    } else {
        case.take(alloc, mark, text, out)
    }
}
