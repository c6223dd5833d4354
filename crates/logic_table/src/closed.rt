//! Sets of literals that unit propagation doesn't leave.

ghost use Rattle.std.specs.Prelude.{◌≢◌, ◌↔◌, IsTrue, All, Any, Contains};
ghost use Rattle.hint_refutation.specs.Propagation.{ClosedUnder, IsConsistent, IsSettled};
ghost use Rattle.axiom_rules.specs.Literals.{negated};
ghost use Rattle.logic_table.specs.Open.{IsOpen};

use axiom_rules::Literal;
use hint_refutation::settled_is_closed;
use proof_log::Lits;
use std::alloc::{AllocError, Global};

/// Whether the literal is among these.
pub fn has(held: &[Literal], literal: Literal) -> bool
    ensures { IsTrue result ↔ Contains held.now literal }
{
    held.contains(&literal)
}

/// Whether the negations of the literals are among those that are held.
pub fn are_denied(literals: &[Literal], held: &[Literal]) -> bool
    ensures { IsTrue result → All (λ l. Contains held.now (negated l)) literals.now }
{
    literals.iter().all(|literal| has(held, literal.negated()))
}

// Whether none of the literals stands there negated too.
fn is_consistent(held: &[Literal]) -> bool
    ensures { IsTrue result → IsConsistent negated held.now }
{
    held.iter().all(|literal| !has(held, literal.negated()))
}

// Whether a literal of the clause other than this one isn't false.
fn has_other_open(clause: &[Literal], held: &[Literal], one: Literal) -> bool
    ensures { IsTrue result → Any (λ l. (l ≢ one) × IsOpen held.now l) clause.now }
{
    clause
        .iter()
        .any(|other| *other != one && !has(held, other.negated()))
}

// Whether two literals of the clause aren't false.
fn has_two_open(clause: &[Literal], held: &[Literal]) -> bool
    ensures { IsTrue result → Any (λ l. IsOpen held.now l × Any (λ m. (m ≢ l) × IsOpen held.now m) clause.now) clause.now }
{
    clause.iter().any(|one| !has(held, one.negated()) && has_other_open(clause, held, *one))
}

// Whether a literal of the clause is held, or two aren't false.
fn is_settled(clause: &[Literal], held: &[Literal]) -> bool
    ensures { IsTrue result → IsSettled negated held.now clause.now }
{
    clause.iter().any(|literal| has(held, *literal)) || has_two_open(clause, held)
}

/// Whether the literals are consistent and settle each clause, so that propagation ends with them.
pub fn is_closed(clauses: &[Lits], held: &[Literal]) -> bool
    ensures { IsTrue result → ClosedUnder negated clauses.now held.now }
{
    settled_is_closed::<Literal>();
    is_consistent(held)
        && clauses
            .iter()
            .all(|clause| is_settled(clause.as_slice(), held))
}

// The one literal of the clause that isn't false, where there is just one.
fn only_open(clause: &[Literal], held: &[Literal]) -> Option<Literal> {
    let mut open = clause
        .iter()
        .filter(|literal| !has(held, literal.negated()));
    let one = open.next()?;
    match open.next() {
        None => Some(*one),
        Some(_) => None,
    }
}

// Adds what the clauses leave, one after another.
fn pass(clauses: &[Lits], held: &mut Vec<Literal>) -> Result<(), AllocError> {
    for clause in clauses {
        if let Some(literal) = only_open(clause.as_slice(), held)
            && !has(held, literal)
        {
            held.push(literal)?;
        }
    }
    Ok(())
}

/// What propagation over the clauses comes to from the negations of the literals. It ends with a pass that
/// adds nothing; each clause leaves one literal at most, so one pass a clause is enough. Nothing rests on
/// that: `is_closed` tests what comes out.
pub fn propagated(
    alloc: Global,
    clauses: &[Lits],
    literals: &[Literal],
) -> Result<Vec<Literal>, AllocError> {
    let mut held = Vec::new(alloc);
    for literal in literals {
        held.push(literal.negated())?;
    }
    for _pass in 0..clauses.len() {
        let before = held.len();
        pass(clauses, &mut held)?;
        if held.len() == before {
            break;
        }
    }
    Ok(held)
}
