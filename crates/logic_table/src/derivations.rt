//! The section on derivations.

use crate::case::LogicCase;
use crate::checking::checked;
use crate::fresh::is_fresh;
use crate::problems::problem_of;
use crate::rules::rules_of;
use crate::writing::push_items;
use axiom_rules::{Rule, RuleList, Rules};
use mt_model::{Formula, Log};
use proof_check::Check;
use proof_log::{Line, LineFault};
use std::alloc::Global;
use table_case::{push_line, push_marked};

// What the checker finds of lines, if the formula is over the log's hosts.
fn found_over(
    alloc: Global,
    log: &Log,
    formula: &Formula,
    value: bool,
    lines: &[Line],
) -> Option<Check> {
    match formula.unknown_host(log) {
        None => checked(alloc, log, formula, value, lines),
        Some(_) => None,
    }
}

// What the checker finds of lines, if the texts of the case are a log and a formula over its hosts.
fn found(alloc: Global, case: &LogicCase, lines: &[Line]) -> Option<Check> {
    let log = case.log(alloc)?;
    let formula = case.formula(alloc)?;
    found_over(alloc, &log, &formula, case.value(), lines)
}

// Adds what the checker found.
fn push_check(alloc: Global, check: Check, out: &mut Vec<u8>) -> Option<()> {
    match check {
        Check::Refutes => push_line(out, b"refutes"),
        Check::Derives => push_line(out, b"derives"),
        Check::Wrong(line) => push_items(alloc, "wrong", &[line], out),
    }
}

// Adds what the derivation of a case shows.
fn push_shows(alloc: Global, case: &LogicCase, out: &mut Vec<u8>) -> Option<()> {
    match case.lines(alloc)? {
        Ok(lines) => push_check(alloc, found(alloc, case, lines.as_slice())?, out),
        Err(LineFault::Syntax { line }) => push_items(alloc, "syntax", &[line], out),
        Err(LineFault::Memory) => None,
    }
}

// Adds a line that says whether the line of this number is fresh.
fn push_fresh(
    alloc: Global,
    sought: &Rules,
    rules: &[Rule],
    lines: &[Line],
    place: usize,
    out: &mut Vec<u8>,
) -> Option<()> {
    if place == 0 || place > lines.len() {
        return None;
    }
    let words = if is_fresh(alloc, sought, rules, lines, place).ok()? {
        "fresh"
    } else {
        "not fresh"
    };
    push_items(alloc, words, &[place], out)
}

// Adds a line for each Learn line.
fn push_all_fresh(
    alloc: Global,
    sought: &Rules,
    rules: &[Rule],
    lines: &[Line],
    out: &mut Vec<u8>,
) -> Option<()> {
    for at in 0..lines.len() {
        if let Line::Learn { .. } = &lines[at] {
            push_fresh(alloc, sought, rules, lines, at + 1, out)?;
        }
    }
    Some(())
}

// The rules of the problem of a case.
fn rule_list_of(alloc: Global, case: &LogicCase) -> Option<RuleList> {
    Some(problem_of(alloc, case)?.rules)
}

// Adds which of the lines are fresh over the rules of the problem of a case.
fn push_fresh_of(alloc: Global, case: &LogicCase, lines: &[Line], out: &mut Vec<u8>) -> Option<()> {
    let rules = rule_list_of(alloc, case)?;
    let sought = rules_of(alloc, case)?;
    push_all_fresh(alloc, &sought, rules.as_slice(), lines, out)
}

// Adds which lines of a case are fresh.
fn push_freshness(alloc: Global, case: &LogicCase, out: &mut Vec<u8>) -> Option<()> {
    let lines = case.lines(alloc)?.ok()?;
    push_fresh_of(alloc, case, lines.as_slice(), out)
}

/// Takes in a line of the section, and adds what it asks for. After an answer the derivation is empty.
pub fn take(
    alloc: Global,
    case: &mut LogicCase,
    mark: u8,
    text: &[u8],
    out: &mut Vec<u8>,
) -> Option<()> {
    match mark {
        b'?' => {
            push_marked(out, mark, text)?;
            push_shows(alloc, case, out)?;
            case.clear_derivation();
            Some(())
        }
        b'%' => {
            push_marked(out, mark, text)?;
            push_freshness(alloc, case, out)?;
            case.clear_derivation();
            Some(())
        }
        _ => case.take(alloc, mark, text, out),
    }
}
