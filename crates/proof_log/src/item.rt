//! What stands at the front of the words of a line, and the words after it: None where something else stands there.

ghost use Rattle.std.specs.Prelude.{◌≢◌, ◌<◌, Some, None, MatchOption, IfSome};
ghost use Rattle.mt_model.specs.declared.limits.TheConstants.{MAX_ORDER};
ghost use Rattle.mt_model.specs.Log.{IsWithin};
ghost use Rattle.proof_log.specs.Fronts.{Finds, FindsNone, order_literal_in, order_step_in};
ghost use Rattle.proof_log.specs.Reading.{argument_in, arguments_in, atom_in, bound_in, byte_in, constraint_in, hint_in, literal_in, number_in, rising_in, rule_in, signed_in, step_in, three_in, two_in};

use crate::line::Hint;
use crate::word::next_word;
use axiom_rules::{Atom, Literal, Rule, argument_count, order_literal};
use decimal::{number, signed_number};
use mt_model::{MAX_ORDER, Step};

/// `t_e - t_f <= c`.
#[derive(Clone, Copy)]
pub struct Constraint {
    pub e: u32,
    pub f: u32,
    pub c: i128,
}

/// A number below 2^32.
pub fn next_number(words: &[u8]) -> Option<(u32, &[u8])>
    ensures { MatchOption result (FindsNone number_in words.now) (λ r. Finds number_in words.now r.0 r.1.now) }
{
    let (word, rest) = next_word(words)?;
    let value = number(word, 1 << 32)?;
    Some((value as u32, rest))
}

fn next_byte(words: &[u8]) -> Option<(u8, &[u8])>
    ensures { MatchOption result (FindsNone byte_in words.now) (λ r. Finds byte_in words.now r.0 r.1.now) }
{
    let (word, rest) = next_word(words)?;
    let value = number(word, 1 << 8)?;
    Some((value as u8, rest))
}

fn next_bound(words: &[u8]) -> Option<(i128, &[u8])>
    ensures value { MatchOption result (FindsNone bound_in words.now) (λ r. Finds bound_in words.now r.0 r.1.now) }
    ensures range { IfSome result (λ r. IsWithin MAX_ORDER r.0) }
{
    let (word, rest) = next_word(words)?;
    let value = signed_number(word, MAX_ORDER)?;
    Some((value, rest))
}

fn next_two(words: &[u8]) -> Option<((u32, u32), &[u8])>
    ensures { MatchOption result (FindsNone two_in words.now) (λ r. Finds two_in words.now (r.0.0, r.0.1) r.1.now) }
{
    let (a, rest) = next_number(words)?;
    let (b, rest) = next_number(rest)?;
    Some(((a, b), rest))
}

// Two numbers, the smaller first.
fn next_rising(words: &[u8]) -> Option<((u32, u32), &[u8])>
    ensures { MatchOption result (FindsNone rising_in words.now) (λ r. Finds rising_in words.now (r.0.0, r.0.1) r.1.now) }
{
    let ((a, b), rest) = next_two(words)?;
    if a < b { Some(((a, b), rest)) } else { None }
}

fn next_three(words: &[u8]) -> Option<((u32, u32, u32), &[u8])>
    ensures { MatchOption result (FindsNone three_in words.now) (λ r. Finds three_in words.now (r.0.0, r.0.1, r.0.2) r.1.now) }
{
    let ((a, b), rest) = next_two(words)?;
    let (c, rest) = next_number(rest)?;
    Some(((a, b, c), rest))
}

// Two different events and a bound.
fn next_constraint(words: &[u8]) -> Option<(Constraint, &[u8])>
    ensures value { MatchOption result (FindsNone constraint_in words.now) (λ r. Finds constraint_in words.now r.0 r.1.now) }
    ensures apart { IfSome result (λ r. r.0.e ≢ r.0.f) }
    ensures range { IfSome result (λ r. IsWithin MAX_ORDER r.0.c) }
{
    let ((e, f), rest) = next_two(words)?;
    if e == f {
        return None;
    }
    let (c, rest) = next_bound(rest)?;
    Some((Constraint { e, f, c }, rest))
}

fn next_order_step(words: &[u8]) -> Option<(Step, &[u8])>
    ensures { MatchOption result (FindsNone order_step_in words.now) (λ r. Finds order_step_in words.now r.0 r.1.now) }
{
    let (Constraint { e, f, c }, rest) = next_constraint(words)?;
    Some((Step::Order { e, f, c }, rest))
}

/// A step.
pub fn next_step(words: &[u8]) -> Option<(Step, &[u8])>
    ensures { MatchOption result (FindsNone step_in words.now) (λ r. Finds step_in words.now r.0 r.1.now) }
{
    let (word, rest) = next_word(words)?;
    if word == b"low".as_slice() {
        let (e, rest) = next_number(rest)?;
        Some((Step::Low(e), rest))
    } else if word == b"high".as_slice() {
        let (e, rest) = next_number(rest)?;
        Some((Step::High(e), rest))
    } else if word == b"rise".as_slice() {
        let (e, rest) = next_number(rest)?;
        Some((Step::Rise(e), rest))
    } else if word == b"message".as_slice() {
        let (e, rest) = next_number(rest)?;
        Some((Step::Message(e), rest))
    } else if word == b"late".as_slice() {
        let (e, rest) = next_number(rest)?;
        Some((Step::Late(e), rest))
    } else if word == b"under".as_slice() {
        let (e, rest) = next_number(rest)?;
        Some((Step::Under(e), rest))
    } else if word == b"over".as_slice() {
        let (e, rest) = next_number(rest)?;
        Some((Step::Over(e), rest))
    } else if word == b"extra".as_slice() {
        let (k, rest) = next_number(rest)?;
        Some((Step::Extra(k), rest))
    } else if word == b"order".as_slice() {
        next_order_step(rest)
    } else {
        None
    }
}

// The atom of a name.
fn next_atom<'a>(name: &[u8], words: &'a [u8]) -> Option<(Atom, &'a [u8])>
    ensures { MatchOption result (FindsNone (atom_in name.now) words.now) (λ r. Finds (atom_in name.now) words.now r.0 r.1.now) }
{
    if name == b"node".as_slice() {
        let ((k, e), rest) = next_two(words)?;
        Some((Atom::Node { k, e }, rest))
    } else if name == b"first".as_slice() {
        let (e, rest) = next_number(words)?;
        Some((Atom::First { e }, rest))
    } else if name == b"same".as_slice() {
        let ((e, x), rest) = next_rising(words)?;
        Some((Atom::Same { e, x }, rest))
    } else if name == b"wit".as_slice() {
        let ((k, i, j), rest) = next_three(words)?;
        Some((Atom::Wit { k, i, j }, rest))
    } else if name == b"span".as_slice() {
        let ((k, i, j), rest) = next_three(words)?;
        Some((Atom::Span { k, i, j }, rest))
    } else if name == b"gap".as_slice() {
        let ((k, i, m), rest) = next_three(words)?;
        Some((Atom::Gap { k, i, m }, rest))
    } else {
        None
    }
}

fn next_order_literal(words: &[u8]) -> Option<(Literal, &[u8])>
    ensures { MatchOption result (FindsNone order_literal_in words.now) (λ r. Finds order_literal_in words.now r.0 r.1.now) }
{
    let (Constraint { e, f, c }, rest) = next_constraint(words)?;
    Some((order_literal(e, f, c), rest))
}

// The literal of a word that begins with a sign.
fn next_signed<'a>(word: &[u8], words: &'a [u8]) -> Option<(Literal, &'a [u8])>
    ensures { MatchOption result (FindsNone (signed_in word.now) words.now) (λ r. Finds (signed_in word.now) words.now r.0 r.1.now) }
{
    match word {
        [b'+', name @ ..] => {
            let (atom, rest) = next_atom(name, words)?;
            let positive = true;
            Some((Literal { atom, positive }, rest))
        }
        [b'-', name @ ..] => {
            let (atom, rest) = next_atom(name, words)?;
            let positive = false;
            Some((Literal { atom, positive }, rest))
        }
        _ => None,
    }
}

/// A literal.
pub fn next_literal(words: &[u8]) -> Option<(Literal, &[u8])>
    ensures { MatchOption result (FindsNone literal_in words.now) (λ r. Finds literal_in words.now r.0 r.1.now) }
{
    let (word, rest) = next_word(words)?;
    if word == b"order".as_slice() {
        next_order_literal(rest)
    } else {
        next_signed(word, rest)
    }
}

// An argument, 0 and no word where it isn't used.
fn next_argument(used: bool, words: &[u8]) -> Option<(u32, &[u8])>
    ensures { MatchOption result (FindsNone (argument_in used) words.now) (λ r. Finds (argument_in used) words.now r.0 r.1.now) }
{
    if used {
        next_number(words)
    } else {
        Some((0, words))
    }
}

fn next_arguments(count: usize, words: &[u8]) -> Option<([u32; 4], &[u8])>
    ensures { MatchOption result (FindsNone (arguments_in count) words.now) (λ r. Finds (arguments_in count) words.now r.0 r.1.now) }
{
    let (a, rest) = next_argument(count > 0, words)?;
    let (b, rest) = next_argument(count > 1, rest)?;
    let (c, rest) = next_argument(count > 2, rest)?;
    let (d, rest) = next_argument(count > 3, rest)?;
    Some(([a, b, c, d], rest))
}

fn next_rule(words: &[u8]) -> Option<(Rule, &[u8])>
    ensures { MatchOption result (FindsNone rule_in words.now) (λ r. Finds rule_in words.now r.0 r.1.now) }
{
    let (number, rest) = next_byte(words)?;
    let (args, rest) = next_arguments(argument_count(number), rest)?;
    Some((Rule { number, args }, rest))
}

/// A hint.
pub fn next_hint(words: &[u8]) -> Option<(Hint, &[u8])>
    ensures { MatchOption result (FindsNone hint_in words.now) (λ r. Finds hint_in words.now r.0 r.1.now) }
{
    let (word, rest) = next_word(words)?;
    if word == b"line".as_slice() {
        let (number, rest) = next_number(rest)?;
        Some((Hint::Line(number), rest))
    } else if word == b"rule".as_slice() {
        let (rule, rest) = next_rule(rest)?;
        Some((Hint::Rule(rule), rest))
    } else {
        None
    }
}
