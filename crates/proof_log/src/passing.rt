//! Lines that are passed over: of their items the atoms of literals alone are held.

ghost use Rattle.std.specs.Prelude.{◌≡◌, ◌↔◌, [], List, IfOk, IsTrue, MatchOption, None, Some};
ghost use Rattle.std.specs.List.{slice_split};
ghost use Rattle.memchr.specs.Find.{is_byte};
ghost use Rattle.mt_model.specs.declared.step.Step.{Step};
ghost use Rattle.proof_log.specs.declared.line.Hint.{Hint};
ghost use Rattle.proof_log.specs.declared.line.Line.{Line};
ghost use Rattle.proof_log.specs.declared.line.Line.TheVariants.{Cycle};
ghost use Rattle.proof_log.specs.Fronts.{Finds, FindsAtoms, FindsNone, hints_in, literals_in, steps_in};
ghost use Rattle.proof_log.specs.LinesOf.{BeginsWithLine, GivesLine, IsFrontLine};
ghost use Rattle.proof_log.specs.LinesText.{space};
ghost use Rattle.proof_log.specs.Reading.{counted_in, learn_in, line_in, made, step_in, whole, words_after};

use crate::atoms::are_apart;
use crate::item::{next_hint, next_literal, next_number, next_step};
use crate::word::cut_word;
use axiom_rules::Atom;
use memchr::memchr;
use std::alloc::{AllocError, Global};

// What follows a number and so many steps.
fn pass_steps(words: &[u8]) -> Option<&[u8]>
    ensures { MatchOption result (FindsNone steps_in words.now) (λ rest. (steps : List Step) × Finds steps_in words.now steps rest.now) }
{
    let Some((count, first)) = next_number(words) else {
        return None;
    };
    let mut rest = first;
    let mut passed = 0;
    while passed < count {
        let Some((_, after)) = next_step(rest) else {
            return None;
        };
        passed += 1;
        rest = after;
    }
    Some(rest)
}

// What follows a number and so many hints.
fn pass_hints(words: &[u8]) -> Option<&[u8]>
    ensures { MatchOption result (FindsNone hints_in words.now) (λ rest. (hints : List Hint) × Finds hints_in words.now hints rest.now) }
{
    let Some((count, first)) = next_number(words) else {
        return None;
    };
    let mut rest = first;
    let mut passed = 0;
    while passed < count {
        let Some((_, after)) = next_hint(rest) else {
            return None;
        };
        passed += 1;
        rest = after;
    }
    Some(rest)
}

// Keeps the atoms of a number of literals. The answer is what follows these, where the words begin so.
fn pass_atoms<'a>(atoms: &mut Vec<Atom>, words: &'a [u8]) -> Result<Option<&'a [u8]>, AllocError>
    requires { atoms.old.items ≡ [] }
    ensures { IfOk result (λ o. MatchOption o (FindsNone literals_in words.now) (λ rest. FindsAtoms words.now atoms.new.items rest.now)) }
{
    let Some((count, first)) = next_number(words) else {
        return Ok(None);
    };
    let mut rest = first;
    while atoms.len() < count as usize {
        let Some((literal, after)) = next_literal(rest) else {
            return Ok(None);
        };
        atoms.push(literal.atom)?;
        rest = after;
    }
    Ok(Some(rest))
}

// Whether the words after `cycle` are those of a Cycle line.
fn is_cycle(words: &[u8]) -> bool
    ensures { IsTrue result ↔ GivesLine (whole (made Cycle (counted_in step_in (words_after words.now)))) }
{
    let Some(rest) = pass_steps(words) else {
        return false;
    };
    rest.is_empty()
}

// Whether the words after `learn` are those of a Learn line.
fn is_learn(alloc: Global, words: &[u8]) -> Result<bool, AllocError>
    ensures { IfOk result (λ b. IsTrue b ↔ GivesLine (whole (learn_in (words_after words.now)))) }
{
    let mut atoms = Vec::new(alloc);
    let Some(after) = pass_atoms(&mut atoms, words)? else {
        return Ok(false);
    };
    let Some(rest) = pass_hints(after) else {
        return Ok(false);
    };
    if rest.is_empty() {
        Ok(are_apart(&mut atoms))
    } else {
        Ok(false)
    }
}

// Whether the bytes are the words of a line.
fn is_line(alloc: Global, bytes: &[u8]) -> Result<bool, AllocError>
    ensures { IfOk result (λ b. IsTrue b ↔ GivesLine (line_in (slice_split (is_byte space) bytes.now))) }
{
    let (word, rest) = cut_word(bytes);
    if word == b"cycle".as_slice() {
        Ok(is_cycle(rest))
    } else if word == b"learn".as_slice() {
        is_learn(alloc, rest)
    } else {
        Ok(false)
    }
}

/// What follows the line with which the bytes begin, and None where they begin with none. Memory is taken for its atoms
/// alone. The error only says that memory ran out.
pub fn pass_line(alloc: Global, bytes: &[u8]) -> Result<Option<&[u8]>, AllocError>
    ensures front { IfOk result (λ o. MatchOption o (BeginsWithLine bytes.now → ⊥) (λ rest. (line : Line) × IsFrontLine bytes.now line rest.now)) }
{
    let Some(end) = memchr(b'\n', bytes) else {
        return Ok(None);
    };
    if is_line(alloc, &bytes[..end])? {
        Ok(Some(&bytes[end + 1..]))
    } else {
        Ok(None)
    }
}
