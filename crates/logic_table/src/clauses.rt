//! Literals and clauses as texts.

ghost use Rattle.std.specs.Prelude.{◌≢◌, All, IsTrue};
ghost use Rattle.clause_db.specs.Literals.{HasVarsOnce};

use crate::writing::push_items;
use clause_db::{ClauseRef, Db, Lit, Var};
use std::alloc::Global;
use table_case::number_of;

// A literal by its sign and its variable.
fn lit_of(word: &str) -> Option<Lit> {
    match word.strip_prefix("-") {
        Some(number) => Some(Lit::new(Var::new(number_of(number)?), false)),
        None => Some(Lit::new(Var::new(number_of(word)?), true)),
    }
}

/// Literals with a space between two.
pub fn lits_of(alloc: Global, text: &str) -> Option<Vec<Lit>> {
    let mut lits = Vec::new(alloc);
    if !text.is_empty() {
        for word in text.split(' ') {
            lits.push(lit_of(word)?).ok()?;
        }
    }
    Some(lits)
}

// A literal as its sign and its variable.
fn lit_text(alloc: Global, lit: Lit) -> Option<String> {
    let sign = if lit.positive() { '+' } else { '-' };
    format!(in alloc; "{sign}{}", lit.var().get()).ok()
}

/// Adds the line of literals, which begins with a word.
pub fn push_lits(alloc: Global, word: &str, lits: &[Lit], out: &mut Vec<u8>) -> Option<()> {
    let mut texts = Vec::new(alloc);
    for lit in lits {
        texts.push(lit_text(alloc, *lit)?).ok()?;
    }
    push_items(alloc, word, &texts, out)
}

/// Adds the line of clauses by their places, which begins with a word.
pub fn push_places(
    alloc: Global,
    word: &str,
    clauses: &[ClauseRef],
    out: &mut Vec<u8>,
) -> Option<()> {
    let mut places = Vec::new(alloc);
    for clause in clauses {
        places.push(clause.get()).ok()?;
    }
    push_items(alloc, word, &places, out)
}

// Whether no literal has a variable.
fn is_without(lits: &[Lit], var: Var) -> bool
    ensures { IsTrue result → All (λ l. l.var ≢ var) lits.now }
{
    lits.iter().all(|lit| lit.var() != var)
}

// Whether no variable stands twice.
fn has_vars_once(lits: &[Lit]) -> bool
    ensures { IsTrue result → HasVarsOnce lits.now }
{
    for place in 0..lits.len() {
        if !is_without(&lits[..place], lits[place].var()) {
            return false;
        }
    }
    true
}

/// Adds a clause in which no variable stands twice.
pub fn add_clause(db: &mut Db, lits: &[Lit]) -> Option<()> {
    if !has_vars_once(lits) || db.len() == u32::MAX {
        return None;
    }
    db.add(lits).ok()?;
    Some(())
}

// The negations of literals.
fn denied(alloc: Global, lits: &[Lit]) -> Option<Vec<Lit>> {
    let mut others = Vec::new(alloc);
    for lit in lits {
        others.push(lit.negated()).ok()?;
    }
    Some(others)
}

/// Adds the clauses, each with its place and with the negations of its literals.
pub fn push_clauses(alloc: Global, db: &Db, out: &mut Vec<u8>) -> Option<()> {
    for place in 0..db.len() {
        let lits = db.lits(ClauseRef::new(place));
        push_lits(alloc, "clause", lits, out)?;
        push_lits(alloc, "denied", &denied(alloc, lits)?, out)?;
    }
    Some(())
}
