//! The test that a learnt line is new to what is known.

ghost use Rattle.std.specs.Prelude.{◌≤◌, IsTrue, length, map, IfOk};
ghost use Rattle.hint_refutation.specs.Propagation.{Misses};
ghost use Rattle.axiom_rules.specs.Literals.{negated};
ghost use Rattle.proof_log.specs.Freshness.{Fresh, IsNew};
ghost use Rattle.proof_check.specs.Answering.{OfSought};

use crate::closed::{are_denied, has, is_closed, propagated};
use crate::known::known;
use axiom_rules::{Literal, Rule, Rules};
use proof_log::{Line, Lits};
use std::alloc::{AllocError, Global};

// Whether what is held is closed, denies the others and lacks the first.
fn misses(clauses: &[Lits], held: &[Literal], first: Literal, others: &[Literal]) -> bool
    ensures { IsTrue result → Misses negated clauses.now (map negated others.now) first }
{
    if has(held, first) {
        return false;
    }
    if !are_denied(others, held) {
        return false;
    }
    is_closed(clauses, held)
}

// Whether propagation over the clauses doesn't give what the literals say.
fn is_new(alloc: Global, clauses: &[Lits], literals: &[Literal]) -> Result<bool, AllocError>
    ensures { IfOk result (λ b. IsTrue b → IsNew clauses.now literals.now) }
{
    match literals.split_first() {
        Some((first, others)) => {
            let held = propagated(alloc, clauses, others)?;
            Ok(misses(clauses, &held, *first, others))
        }
        None => Ok(false),
    }
}

/// Whether a line, numbered from 1, is fresh over the clauses of these rules. Where it says so the line is;
/// that it isn't where it says no isn't proved.
pub fn is_fresh(
    alloc: Global,
    sought: &Rules,
    rules: &[Rule],
    lines: &[Line],
    place: usize,
) -> Result<bool, AllocError>
    requires first { 1 ≤ place }
    requires within { place ≤ length lines.now }
    ensures fresh { IfOk result (λ b. IsTrue b → OfSought sought.now (λ log f v. Fresh log f v rules.now lines.now place)) }
{
    let clauses = known(alloc, sought, rules, lines, place)?;
    match &lines[place - 1] {
        Line::Cycle(_) => Ok(false),
        Line::Learn { lits, .. } => is_new(alloc, &clauses, lits.as_slice()),
    }
}
