//! The text of lines.

ghost use Rattle.std.specs.Prelude.{◌≡◌, [], ◌∷◌, ◌++◌, ◌<◌, ◌^◌, length, All, IfOk, OnOk};
ghost use Rattle.std.specs.Fmt.{decimal};
ghost use Rattle.std.specs.List.{flat_map, join_with_byte};
ghost use Rattle.proof_log.specs.LinesText.{hint_words, line_text, line_words, lines_text, literal_words, number_words, order_words, rule_words, signed_word, space, spaced, step_words};
ghost use Rattle.proof_log.specs.Spelled.{IsSpelled, IsSpelledLiteral};

use crate::line::{Hint, Line};
use axiom_rules::{Atom, Literal, Rule, argument_count};
use mt_model::Step;
use std::alloc::{AllocError, Global};

// Adds a word after a space.
fn push_word(text: &mut Vec<u8>, word: &[u8]) -> Result<(), AllocError>
    ensures { OnOk result (text.new.items ≡ text.old.items ++ spaced (word.now ∷ [])) }
{
    text.push(b' ')?;
    text.extend_from_slice(word)
}

fn push_number(alloc: Global, text: &mut Vec<u8>, number: u32) -> Result<(), AllocError>
    ensures { OnOk result (text.new.items ≡ text.old.items ++ spaced (decimal number ∷ [])) }
{
    let digits = number.to_string(alloc)?;
    push_word(text, digits.as_bytes())
}

fn push_numbers(alloc: Global, text: &mut Vec<u8>, numbers: &[u32]) -> Result<(), AllocError>
    ensures { OnOk result (text.new.items ≡ text.old.items ++ spaced (number_words numbers.now)) }
{
    for number in numbers {
        push_number(alloc, text, *number)?;
    }
    Ok(())
}

// Adds a word and its numbers.
fn push_named(
    alloc: Global,
    text: &mut Vec<u8>,
    word: &[u8],
    numbers: &[u32],
) -> Result<(), AllocError>
    ensures { OnOk result (text.new.items ≡ text.old.items ++ spaced (word.now ∷ number_words numbers.now)) }
{
    push_word(text, word)?;
    push_numbers(alloc, text, numbers)
}

// Adds a word with the sign of a sense before it, and its numbers.
fn push_signed(
    alloc: Global,
    text: &mut Vec<u8>,
    positive: bool,
    word: &[u8],
    numbers: &[u32],
) -> Result<(), AllocError>
    ensures { OnOk result (text.new.items ≡ text.old.items ++ spaced (signed_word positive word.now ∷ number_words numbers.now)) }
{
    text.push(b' ')?;
    text.push(if positive { b'+' } else { b'-' })?;
    text.extend_from_slice(word)?;
    push_numbers(alloc, text, numbers)
}

// Adds `t_e - t_f <= c`.
fn push_order(alloc: Global, text: &mut Vec<u8>, e: u32, f: u32, c: i128) -> Result<(), AllocError>
    ensures { OnOk result (text.new.items ≡ text.old.items ++ spaced (order_words e f c)) }
{
    push_named(alloc, text, b"order", &[e, f])?;
    let bound = c.to_string(alloc)?;
    push_word(text, bound.as_bytes())
}

fn push_step(alloc: Global, text: &mut Vec<u8>, step: Step) -> Result<(), AllocError>
    ensures { OnOk result (text.new.items ≡ text.old.items ++ spaced (step_words step)) }
{
    match step {
        Step::Low(e) => push_named(alloc, text, b"low", &[e]),
        Step::High(e) => push_named(alloc, text, b"high", &[e]),
        Step::Rise(e) => push_named(alloc, text, b"rise", &[e]),
        Step::Message(e) => push_named(alloc, text, b"message", &[e]),
        Step::Late(e) => push_named(alloc, text, b"late", &[e]),
        Step::Under(e) => push_named(alloc, text, b"under", &[e]),
        Step::Over(e) => push_named(alloc, text, b"over", &[e]),
        Step::Extra(k) => push_named(alloc, text, b"extra", &[k]),
        Step::Order { e, f, c } => push_order(alloc, text, e, f, c),
    }
}

fn push_literal(alloc: Global, text: &mut Vec<u8>, literal: Literal) -> Result<(), AllocError>
    requires { IsSpelledLiteral literal }
    ensures { OnOk result (text.new.items ≡ text.old.items ++ spaced (literal_words literal)) }
{
    let positive = literal.positive;
    match literal.atom {
        Atom::Order { e, f, c } if positive => push_order(alloc, text, e, f, c),
        Atom::Order { e, f, c } => push_order(alloc, text, f, e, -c - 1),
        Atom::Node { k, e } => push_signed(alloc, text, positive, b"node", &[k, e]),
        Atom::First { e } => push_signed(alloc, text, positive, b"first", &[e]),
        Atom::Same { e, x } => push_signed(alloc, text, positive, b"same", &[e, x]),
        Atom::Wit { k, i, j } => push_signed(alloc, text, positive, b"wit", &[k, i, j]),
        Atom::Span { k, i, j } => push_signed(alloc, text, positive, b"span", &[k, i, j]),
        Atom::Gap { k, i, m } => push_signed(alloc, text, positive, b"gap", &[k, i, m]),
    }
}

fn push_rule(alloc: Global, text: &mut Vec<u8>, rule: &Rule) -> Result<(), AllocError>
    ensures { OnOk result (text.new.items ≡ text.old.items ++ spaced (rule_words rule.now)) }
{
    let count = argument_count(rule.number);
    push_number(alloc, text, rule.number as u32)?;
    push_numbers(alloc, text, &rule.args[..count])
}

fn push_hint(alloc: Global, text: &mut Vec<u8>, hint: &Hint) -> Result<(), AllocError>
    ensures { OnOk result (text.new.items ≡ text.old.items ++ spaced (hint_words hint.now)) }
{
    match hint {
        Hint::Line(number) => push_named(alloc, text, b"line", &[*number]),
        Hint::Rule(rule) => {
            push_word(text, b"rule")?;
            push_rule(alloc, text, rule)
        }
    }
}

// Adds the number of steps, and the steps.
fn push_steps(alloc: Global, text: &mut Vec<u8>, steps: &[Step]) -> Result<(), AllocError>
    requires { length steps.now < 2 ^ 32 }
    ensures { OnOk result (text.new.items ≡ text.old.items ++ spaced (decimal (length steps.now) ∷ flat_map step_words steps.now)) }
{
    push_number(alloc, text, steps.len() as u32)?;
    for step in steps {
        push_step(alloc, text, *step)?;
    }
    Ok(())
}

// Adds the number of literals, and the literals.
fn push_literals(alloc: Global, text: &mut Vec<u8>, lits: &[Literal]) -> Result<(), AllocError>
    requires count { length lits.now < 2 ^ 32 }
    requires spelled { All IsSpelledLiteral lits.now }
    ensures { OnOk result (text.new.items ≡ text.old.items ++ spaced (decimal (length lits.now) ∷ flat_map literal_words lits.now)) }
{
    push_number(alloc, text, lits.len() as u32)?;
    for literal in lits {
        push_literal(alloc, text, *literal)?;
    }
    Ok(())
}

/// Adds the number of hints, and the hints, with a space before each word. The error only says that memory ran out.
pub fn push_hints(alloc: Global, text: &mut Vec<u8>, hints: &[Hint]) -> Result<(), AllocError>
    requires { length hints.now < 2 ^ 32 }
    ensures { OnOk result (text.new.items ≡ text.old.items ++ spaced (decimal (length hints.now) ∷ flat_map hint_words hints.now)) }
{
    push_number(alloc, text, hints.len() as u32)?;
    for hint in hints {
        push_hint(alloc, text, hint)?;
    }
    Ok(())
}

// Adds the words of a line.
fn push_words(alloc: Global, text: &mut Vec<u8>, line: &Line) -> Result<(), AllocError>
    requires { IsSpelled line.now }
    ensures { OnOk result (text.new.items ≡ text.old.items ++ join_with_byte space (line_words line.now)) }
{
    match line {
        Line::Cycle(steps) => {
            text.extend_from_slice(b"cycle")?;
            push_steps(alloc, text, steps.as_slice())
        }
        Line::Learn { lits, hints } => {
            text.extend_from_slice(b"learn")?;
            push_literals(alloc, text, lits.as_slice())?;
            push_hints(alloc, text, hints.as_slice())
        }
    }
}

/// Adds the text of a line that has a spelling, with its newline. The error only says that memory ran
/// out.
pub fn push_line(alloc: Global, text: &mut Vec<u8>, line: &Line) -> Result<(), AllocError>
    requires { IsSpelled line.now }
    ensures text { OnOk result (text.new.items ≡ text.old.items ++ line_text line.now) }
{
    push_words(alloc, text, line)?;
    text.push(b'\n')?;
    Ok(())
}

/// The one text of lines that each have a spelling: a word, numbers and more words with a space
/// between each two, and a newline after each line. The error only says that memory ran out.
pub fn print_lines(alloc: Global, lines: &[Line]) -> Result<Vec<u8>, AllocError>
    requires { All IsSpelled lines.now }
    ensures text { IfOk result (λ bytes. bytes.items ≡ lines_text lines.now) }
{
    let mut text = Vec::new(alloc);
    for line in lines {
        push_line(alloc, &mut text, line)?;
    }
    Ok(text)
}
