//! The values of all atoms in the present timing, and whether they meet all clauses.

ghost use Rattle.std.specs.Prelude.{◌≡◌, ◌↔◌, ◌<◌, IsTrue, IfOk, IfSome, length, map, true, All};
ghost use Rattle.std.specs.List.{list_any};
ghost use Rattle.neg_cycle.specs.Systems.{Meets};
ghost use Rattle.clause_db.specs.Literals.{value_of as value_of_literal};
ghost use Rattle.propagate.specs.Links.{edges_at};
ghost use Rattle.mtl_encode.specs.Models.{value_at};
ghost use Rattle.cdcl_core.specs.Assignments.{AreOrderValues};
ghost use Rattle.cdcl_core.specs.Orders.{IsOrderAmong, order_edges};

use crate::difference::order_edges as edges_of_order;
use crate::sight::Sight;
use crate::strategy::Strategy;
use axiom_rules::AtomTable;
use clause_db::{ClauseRef, Db, Lit, Var};
use difference_graph::graphs_are_solved;
use mt_model::Bits;
use std::alloc::{AllocError, Global};

// The value of a variable in the present timing, where these are the values of the smaller ones: of an order what the
// numbers say, of another what its clauses make of it.
fn value_in(
    atoms: &AtomTable,
    sight: &Sight<'_>,
    strategy: &mut Strategy,
    values: &[bool],
    var: Var,
) -> bool
    requires within { var < length atoms.now }
    requires orders { All (IsOrderAmong sight.now.graph.now.nodes) atoms.now }
    ensures order { IfSome (edges_at (map order_edges atoms.now) var) (λ both. IsTrue result ↔ Meets sight.now.graph.now.numbers both.0) }
{
    graphs_are_solved(sight.graph);
    match edges_of_order(atoms.atom(var)) {
        Some((yes, _)) => sight.graph.meets(yes),
        None => strategy.value(*sight, values, var),
    }
}

/// The value of each variable in the present timing.
pub fn values_in(
    alloc: Global,
    atoms: &AtomTable,
    sight: &Sight<'_>,
    strategy: &mut Strategy,
) -> Result<Bits, AllocError>
    requires orders { All (IsOrderAmong sight.now.graph.now.nodes) atoms.now }
    ensures count { IfOk result (λ values. length values ≡ length atoms.now) }
    ensures orders { IfOk result (AreOrderValues (map order_edges atoms.now) sight.now.graph.now.numbers) }
{
    let mut values = Bits::new(alloc);
    for v in 0..atoms.len() {
        let value = value_in(atoms, sight, strategy, values.as_slice(), Var::new(v));
        values.push(value)?;
    }
    Ok(values)
}

// Whether these values make a literal true.
fn is_true(values: &[bool], lit: Lit) -> bool
    ensures { result ≡ value_of_literal (value_at values.now) lit }
{
    let value = values
        .get(lit.var().get() as usize)
        .copied()
        .unwrap_or(false);
    if lit.positive() { value } else { !value }
}

// Whether these values make a literal of a clause true.
fn is_met(values: &[bool], lits: &[Lit]) -> bool
    ensures { result ≡ list_any (value_of_literal (value_at values.now)) lits.now }
{
    lits.iter().any(|lit| is_true(values, *lit))
}

/// Whether these values make a literal of each clause true.
pub fn meet_all(values: &[bool], db: &Db) -> bool
    ensures { IsTrue result → All (λ lits. list_any (value_of_literal (value_at values.now)) lits ≡ true) db.now }
{
    for c in 0..db.len() {
        if !is_met(values, db.lits(ClauseRef::new(c))) {
            return false;
        }
    }
    true
}
