//! The one text of a formula.

ghost use Rattle.std.specs.Prelude.{◌≡◌, [], ◌∷◌, ◌++◌, codes, IfOk, OnOk, Ok};
ghost use Rattle.std.specs.Fmt.{decimal};
ghost use Rattle.mt_model.specs.Form.{form_of};
ghost use Rattle.mtl_parse.specs.FormulaOf.{FormulaOf};
ghost use Rattle.mtl_parse.specs.FormulaText.{PrintedFormulasReadBack, formula_text, high_text, interval_text, joined, prefixed, timed_text};

use mt_model::{Formula, Interval, Name, Tree};
use std::alloc::{AllocError, Global};

fn push_number(alloc: Global, text: &mut Vec<u8>, number: u64) -> Result<(), AllocError>
    ensures { OnOk result (text.new.items ≡ text.old.items ++ decimal number) }
{
    let digits = number.to_string(alloc)?;
    text.extend_from_slice(digits.as_bytes())
}

fn push_high(alloc: Global, text: &mut Vec<u8>, high: Option<u64>) -> Result<(), AllocError>
    ensures { OnOk result (text.new.items ≡ text.old.items ++ high_text high) }
{
    match high {
        Some(high) => push_number(alloc, text, high),
        None => text.extend_from_slice(b"inf"),
    }
}

fn push_interval(alloc: Global, text: &mut Vec<u8>, interval: &Interval) -> Result<(), AllocError>
    ensures { OnOk result (text.new.items ≡ text.old.items ++ interval_text interval.now) }
{
    text.push(b'[')?;
    push_number(alloc, text, interval.low)?;
    text.push(b',')?;
    push_high(alloc, text, interval.high)?;
    text.push(b']')?;
    Ok(())
}

// Adds a letter, its interval and a space.
fn push_letter(
    alloc: Global,
    text: &mut Vec<u8>,
    letter: u8,
    interval: &Interval,
) -> Result<(), AllocError>
    ensures { OnOk result (text.new.items ≡ text.old.items ++ (letter ∷ [] ++ interval_text interval.now ++ codes " ")) }
{
    text.push(letter)?;
    push_interval(alloc, text, interval)?;
    text.extend_from_slice(b" ")
}

fn push_proposition(text: &mut Vec<u8>, host: &Name, name: &Name) -> Result<(), AllocError>
    ensures { OnOk result (text.new.items ≡ text.old.items ++ host.now ++ codes "." ++ name.now) }
{
    text.extend_from_slice(host.bytes())?;
    text.push(b'.')?;
    text.extend_from_slice(name.bytes())
}

// Adds two formulas with a sign between them, in parentheses.
#[cycle(printer)]
fn push_joined(
    alloc: Global,
    text: &mut Vec<u8>,
    left: &Tree,
    sign: &[u8],
    right: &Tree,
) -> Result<(), AllocError>
    ensures { OnOk result (text.new.items ≡ text.old.items ++ joined (formula_text (form_of left.now)) sign.now (formula_text (form_of right.now))) }
{
    text.push(b'(')?;
    push_tree(alloc, text, left)?;
    text.push(b' ')?;
    text.extend_from_slice(sign)?;
    text.push(b' ')?;
    push_tree(alloc, text, right)?;
    text.push(b')')?;
    Ok(())
}

// Adds two formulas with a letter and an interval between them, in parentheses.
#[cycle(printer)]
fn push_timed(
    alloc: Global,
    text: &mut Vec<u8>,
    left: &Tree,
    letter: u8,
    interval: &Interval,
    right: &Tree,
) -> Result<(), AllocError>
    ensures { OnOk result (text.new.items ≡ text.old.items ++ timed_text (form_of left.now) (letter ∷ []) interval.now (form_of right.now)) }
{
    text.push(b'(')?;
    push_tree(alloc, text, left)?;
    text.push(b' ')?;
    push_letter(alloc, text, letter, interval)?;
    push_tree(alloc, text, right)?;
    text.push(b')')?;
    Ok(())
}

// Adds a letter with its interval, and the formula that it stands before.
#[cycle(printer)]
fn push_prefixed(
    alloc: Global,
    text: &mut Vec<u8>,
    letter: u8,
    interval: &Interval,
    operand: &Tree,
) -> Result<(), AllocError>
    ensures { OnOk result (text.new.items ≡ text.old.items ++ prefixed (letter ∷ []) interval.now (formula_text (form_of operand.now))) }
{
    push_letter(alloc, text, letter, interval)?;
    push_tree(alloc, text, operand)
}

#[cycle(printer)]
fn push_tree(alloc: Global, text: &mut Vec<u8>, tree: &Tree) -> Result<(), AllocError>
    ensures { OnOk result (text.new.items ≡ text.old.items ++ formula_text (form_of tree.now)) }
{
    match tree {
        Tree::True => text.extend_from_slice(b"true"),
        Tree::False => text.extend_from_slice(b"false"),
        Tree::Prop { host, name } => push_proposition(text, host, name),
        Tree::Not(f) => {
            text.push(b'!')?;
            push_tree(alloc, text, f)
        }
        Tree::And(f, g) => push_joined(alloc, text, f, b"&", g),
        Tree::Or(f, g) => push_joined(alloc, text, f, b"|", g),
        Tree::Implies(f, g) => push_joined(alloc, text, f, b"->", g),
        Tree::Until(interval, f, g) => push_timed(alloc, text, f, b'U', interval, g),
        Tree::Since(interval, f, g) => push_timed(alloc, text, f, b'S', interval, g),
        Tree::Eventually(interval, f) => push_prefixed(alloc, text, b'F', interval, f),
        Tree::Always(interval, f) => push_prefixed(alloc, text, b'G', interval, f),
        Tree::Once(interval, f) => push_prefixed(alloc, text, b'O', interval, f),
        Tree::Historically(interval, f) => push_prefixed(alloc, text, b'H', interval, f),
    }
}

fn text_of(alloc: Global, tree: &Tree) -> Result<Vec<u8>, AllocError>
    ensures { IfOk result (λ bytes. bytes.items ≡ formula_text (form_of tree.now)) }
{
    let mut text = Vec::new(alloc);
    push_tree(alloc, &mut text, tree)?;
    Ok(text)
}

/// The one text of a formula.
///
/// Each interval is written, `inf` where there is no upper bound, and what stands on both sides of an
/// operator is in parentheses with it. The error only says that memory ran out.
pub fn print_formula(alloc: Global, f: &Formula) -> Result<Vec<u8>, AllocError>
    ensures text { IfOk result (λ bytes. bytes.items ≡ formula_text (form_of f.now)) }
    ensures reads_back { IfOk result (λ bytes. FormulaOf bytes.items (Ok (form_of f.now))) }
{
    text_of(alloc, f.tree())
}

/// The text of a formula reads back as the formula.
pub fn printed_formulas_read_back()
    ensures { PrintedFormulasReadBack }
{}
