//! Which lines have a spelling. Their numbers but the bounds are in range by their types.

ghost use Rattle.std.specs.Prelude.{◌≡◌, ◌≤◌, ◌↔◌, length, drop, All, IfOk, IsTrue, ◌-ℤ◌, neg_ℤ, pos};
ghost use Rattle.mt_model.specs.Log.{IsWithin};
ghost use Rattle.proof_log.specs.Spelled.{IsNumber, IsOrder, IsOrderAtom, IsSameAtom, IsSpelled, IsSpelledCycle, IsSpelledHint, IsSpelledLearn, IsSpelledLiteral, IsSpelledRule, IsSpelledStep, written_bound};

use crate::atoms::has_atoms_once;
use crate::line::{Hint, Line};
use axiom_rules::{Atom, Literal, Rule, argument_count};
use mt_model::{MAX_ORDER, Step};
use std::alloc::{AllocError, Global};

/// Whether a number can stand in a text: it is below 2^32.
pub fn is_number(length: usize) -> bool
    ensures { IsTrue result ↔ IsNumber length }
{
    length < 1 << 32
}

fn is_bound(c: i128) -> bool
    ensures { IsTrue result ↔ IsWithin MAX_ORDER c }
{
    -MAX_ORDER <= c && c <= MAX_ORDER
}

// Whether the bound of the negated constraint is in range.
fn is_negated_bound(c: i128) -> bool
    ensures { IsTrue result ↔ IsWithin MAX_ORDER (neg_ℤ c -ℤ pos 1) }
{
    -MAX_ORDER - 1 <= c && c < MAX_ORDER
}

fn is_written_bound(positive: bool, c: i128) -> bool
    ensures { IsTrue result ↔ IsWithin MAX_ORDER (written_bound positive c) }
{
    if positive {
        is_bound(c)
    } else {
        is_negated_bound(c)
    }
}

fn is_order(e: u32, f: u32, c: i128) -> bool
    ensures { IsTrue result ↔ IsOrder e f c }
{
    e != f && is_bound(c)
}

fn is_order_atom(positive: bool, e: u32, f: u32, c: i128) -> bool
    ensures { IsTrue result ↔ IsOrderAtom positive e f c }
{
    e < f && is_written_bound(positive, c)
}

fn is_same_atom(e: u32, x: u32) -> bool
    ensures { IsTrue result ↔ IsSameAtom e x }
{
    e < x
}

fn is_spelled_step(step: Step) -> bool
    ensures { IsTrue result ↔ IsSpelledStep step }
{
    match step {
        Step::Low(_) | Step::High(_) | Step::Rise(_) => true,
        Step::Message(_) | Step::Late(_) | Step::Under(_) => true,
        Step::Over(_) | Step::Extra(_) => true,
        Step::Order { e, f, c } => is_order(e, f, c),
    }
}

fn is_spelled_literal(literal: Literal) -> bool
    ensures { IsTrue result ↔ IsSpelledLiteral literal }
{
    match literal.atom {
        Atom::Order { e, f, c } => is_order_atom(literal.positive, e, f, c),
        Atom::Node { .. } | Atom::First { .. } => true,
        Atom::Same { e, x } => is_same_atom(e, x),
        Atom::Wit { .. } | Atom::Span { .. } | Atom::Gap { .. } => true,
    }
}

// Whether the numbers from a place on are 0. All of them are below 2^32.
fn are_zero_from(numbers: &[u32], place: usize) -> bool
    requires { place ≤ length numbers.now }
    ensures zero { IsTrue result ↔ All (λ n. n ≡ 0) (drop place numbers.now) }
    ensures range { All IsNumber numbers.now }
{
    numbers[place..].iter().all(|n| *n == 0)
}

fn is_spelled_rule(rule: &Rule) -> bool
    ensures { IsTrue result ↔ IsSpelledRule rule.now }
{
    let used = argument_count(rule.number);
    are_zero_from(&rule.args, used)
}

fn is_spelled_hint(hint: Hint) -> bool
    ensures { IsTrue result ↔ IsSpelledHint hint }
{
    match hint {
        Hint::Line(_) => true,
        Hint::Rule(rule) => is_spelled_rule(&rule),
    }
}

fn are_spelled_steps(steps: &[Step]) -> bool
    ensures { IsTrue result ↔ All IsSpelledStep steps.now }
{
    steps.iter().all(|step| is_spelled_step(*step))
}

fn are_spelled_literals(lits: &[Literal]) -> bool
    ensures { IsTrue result ↔ All IsSpelledLiteral lits.now }
{
    lits.iter().all(|literal| is_spelled_literal(*literal))
}

fn are_spelled_hints(hints: &[Hint]) -> bool
    ensures { IsTrue result ↔ All IsSpelledHint hints.now }
{
    hints.iter().all(|hint| is_spelled_hint(*hint))
}

fn is_spelled_cycle(steps: &[Step]) -> bool
    ensures { IsTrue result ↔ IsSpelledCycle steps.now }
{
    is_number(steps.len()) && are_spelled_steps(steps)
}

fn is_spelled_learn(alloc: Global, lits: &[Literal], hints: &[Hint]) -> Result<bool, AllocError>
    ensures { IfOk result (λ b. IsTrue b ↔ IsSpelledLearn lits.now hints.now) }
{
    let are_numbers = is_number(lits.len()) && is_number(hints.len());
    if are_numbers && are_spelled_literals(lits) && are_spelled_hints(hints) {
        has_atoms_once(alloc, lits)
    } else {
        Ok(false)
    }
}

/// Whether a line has a spelling, which `print_lines` asks of each line. The error only says that memory
/// ran out.
pub fn has_spelling(alloc: Global, line: &Line) -> Result<bool, AllocError>
    ensures spelled { IfOk result (λ b. IsTrue b ↔ IsSpelled line.now) }
{
    match line {
        Line::Cycle(steps) => Ok(is_spelled_cycle(steps.as_slice())),
        Line::Learn { lits, hints } => is_spelled_learn(alloc, lits.as_slice(), hints.as_slice()),
    }
}
