//! The lines of assumed orders, which are written where a line cites them.

ghost use Rattle.std.specs.Prelude.{◌≡◌, ◌<◌, [], ◌∷◌, length, All, IfOk, IfSome, IsTrue, OnOk};
ghost use Rattle.neg_cycle.specs.declared.system.TheConstants.{MAX_NODES};
ghost use Rattle.difference_graph.specs.Graphs.{HasSameLimits};
ghost use Rattle.cdcl_core.specs.Orders.{IsOrderAmong, RefusesOrder, atom_at, order_edges as edges_of_order};
ghost use Rattle.cdcl_core.specs.Recording.{IsSettled, cite_at, is_open};
ghost use Rattle.cdcl_core.specs.Settling.{HasSettled};
ghost use Rattle.clause_db.specs.Clauses.{clause_at};
ghost use Rattle.clause_db.specs.Literals.{negation};
ghost use Rattle.propagate.specs.Links.{edge_in};

use crate::conflict::Theory;
use crate::derived::Derived;
use crate::difference::order_edges;
use crate::ground::{Ground, grounds_are_solved};
use crate::walk::{denied, steps_of};
use axiom_rules::Atom;
use clause_db::{ClauseRef, Lit};
use neg_cycle::Edge;
use proof_log::Line;
use std::alloc::{AllocError, Global};

/// How many lines there are at most once a line of an assumed order is written.
pub const MAX_SETTLED: u32 = 4_000_000;

// The edge of an atom in a sense, if it is an order.
fn edge_of(atom: Atom, positive: bool) -> Option<Edge>
    requires order { IsOrderAmong MAX_NODES atom }
    ensures edge { result ≡ edge_in (edges_of_order atom) positive }
{
    match order_edges(atom) {
        Some((yes, no)) => Some(if positive { yes } else { no }),
        None => None,
    }
}

// The literal of a clause that has no other.
fn only(lits: &[Lit]) -> Option<Lit>
    ensures one { IfSome result (λ lit. lits.now ≡ lit ∷ []) }
{
    match lits {
        [lit] => Some(*lit),
        _ => None,
    }
}

// Whether a clause has this literal and no other.
fn is_only(lits: &[Lit], lit: Lit) -> bool
    ensures one { IsTrue result → lits.now ≡ lit ∷ [] }
{
    match only(lits) {
        Some(own) => own == lit,
        None => false,
    }
}

// Writes the line of an assumed order, the clause of which is open, by the walk that the edge of its negation closes with
// the edges of the bounds: whether the walk says it.
fn record(
    alloc: Global,
    theory: &Theory,
    ground: &Ground,
    derived: &mut Derived,
    clause: ClauseRef,
    lit: Lit,
) -> Result<bool, AllocError>
    requires orders { All (IsOrderAmong MAX_NODES) theory.now.atoms }
    requires count { length theory.now.bounds ≡ length ground.now.edges }
    requires within { clause < length derived.old.cites }
    requires low { lit.var < length theory.now.atoms }
    requires open { IsTrue (is_open (cite_at derived.old.cites clause)) }
    requires literal { clause_at derived.old.db clause ≡ lit ∷ [] }
    requires refused { RefusesOrder ground.now (atom_at theory.now.atoms lit.var) (negation lit).positive }
    ensures settled { OnOk result (HasSettled theory.now.atoms theory.now.bounds ground.now.edges derived.old derived.new) }
    ensures done { IfOk result (λ done. IsTrue done → IsSettled (cite_at derived.new.cites clause)) }
{
    // The held edges have a solution, and each atom has one variable.
    grounds_are_solved(ground);
    let _ = theory.atoms.len();
    let orders = [lit.negated()];
    let bounds = theory.bounds.as_slice();
    let steps = steps_of(alloc, bounds, &orders, &theory.atoms, ground.cycle())?;
    let said = denied(alloc, bounds.len(), &orders, ground.cycle())?;
    if is_only(&said, lit) && derived.lines.len() < MAX_SETTLED as usize {
        derived.settle(clause, Line::Cycle(steps))?;
        Ok(true)
    } else {
        Ok(false)
    }
}

// Writes the line of an assumed order, if this is its clause and is open: whether the clause has a line or a rule then, since
// the edges of the bounds give the order.
fn settle(
    alloc: Global,
    theory: &Theory,
    ground: &mut Ground,
    derived: &mut Derived,
    clause: ClauseRef,
) -> Result<bool, AllocError>
    requires orders { All (IsOrderAmong MAX_NODES) theory.now.atoms }
    requires among { All (IsOrderAmong ground.old.nodes) theory.now.atoms }
    requires count { length theory.now.bounds ≡ length ground.old.edges }
    requires room { length ground.old.edges < ground.old.capacity }
    requires held { clause < length derived.old.db }
    requires within { clause < length derived.old.cites }
    requires low { All (λ l. l.var < length theory.now.atoms) (clause_at derived.old.db clause) }
    ensures limits { HasSameLimits ground.old ground.new }
    ensures edges { ground.new.edges ≡ ground.old.edges }
    ensures settled { OnOk result (HasSettled theory.now.atoms theory.now.bounds ground.old.edges derived.old derived.new) }
    ensures done { IfOk result (λ done. IsTrue done → IsSettled (cite_at derived.new.cites clause)) }
    ensures none { IsSettled (cite_at derived.old.cites clause) → IfOk result (λ done. IsTrue done × (derived.new ≡ derived.old)) }
{
    if !derived.cites.is_open(clause) {
        return Ok(true);
    }
    let Some(lit) = only(derived.db.lits(clause)) else {
        return Ok(false);
    };
    let Some(edge) = edge_of(theory.atoms.atom(lit.var()), lit.negated().positive()) else {
        return Ok(false);
    };
    if !ground.refuses(edge)? {
        return Ok(false);
    }
    record(alloc, theory, ground, derived, clause, lit)
}

/// Writes the lines of the assumed orders among these clauses that have none yet: whether the edges of the bounds give all
/// of them.
pub fn settle_all(
    alloc: Global,
    theory: &Theory,
    ground: &mut Ground,
    derived: &mut Derived,
    clauses: &[ClauseRef],
) -> Result<bool, AllocError>
    requires orders { All (IsOrderAmong MAX_NODES) theory.now.atoms }
    requires among { All (IsOrderAmong ground.old.nodes) theory.now.atoms }
    requires count { length theory.now.bounds ≡ length ground.old.edges }
    requires room { length ground.old.edges < ground.old.capacity }
    requires held { All (λ c. c < length derived.old.db) clauses.now }
    requires cited { length derived.old.cites ≡ length derived.old.db }
    requires low { All (All (λ l. l.var < length theory.now.atoms)) derived.old.db }
    ensures limits { HasSameLimits ground.old ground.new }
    ensures edges { ground.new.edges ≡ ground.old.edges }
    ensures settled { OnOk result (HasSettled theory.now.atoms theory.now.bounds ground.old.edges derived.old derived.new) }
    ensures done { IfOk result (λ done. IsTrue done → All (λ c. IsSettled (cite_at derived.new.cites c)) clauses.now) }

    // Where no hint is open nothing is written.
    ensures none { All IsSettled derived.old.cites → IfOk result (λ done. IsTrue done × (derived.new.lines ≡ derived.old.lines)) }
{
    for clause in clauses {
        if !settle(alloc, theory, ground, derived, *clause)? {
            return Ok(false);
        }
    }
    Ok(true)
}
