//! Lines with their clauses.

ghost use Rattle.std.specs.Prelude.{◌≡◌, ◌+◌, ◌-◌, ◌^◌, ◌<◌, [], ◌∷◌, ◌++◌, length, map, All, IfOk, OnOk};
ghost use Rattle.neg_cycle.specs.declared.system.TheConstants.{MAX_NODES};
ghost use Rattle.clause_db.specs.Literals.{HasVarsOnce};
ghost use Rattle.proof_log.specs.declared.line.Hint.TheVariants as hint;
ghost use Rattle.cdcl_core.specs.Founds.{lessons};
ghost use Rattle.propagate.specs.Trails.{literals};
ghost use Rattle.cdcl_core.specs.Orders.{AreLinks, IsOrderAmong, linked};
ghost use Rattle.cdcl_core.specs.Recording.{AddsLearnLine, IsLearnLine, IsSettled, cite_at, read_clause};
ghost use Rattle.cdcl_core.specs.Running.{IsFalseWhereStuck, IsStuckOver, KeepsRecordWhereStuck};
ghost use Rattle.cdcl_core.specs.Extending.{Extends};
ghost use Rattle.cdcl_core.specs.Spending.{KeepsSpending};

use crate::derived::{Derived, read_hints, read_lits};
use crate::walk::{denied, steps_of};
use analyze::Learned;
use axiom_rules::AtomTable;
use clause_db::{ClauseRef, Lit};
use difference_graph::{Graph, graphs_are_solved};
use mt_model::Bound;
use proof_log::Line;
use propagate::{Links, Trail};
use std::alloc::{AllocError, Global};

/// The line and the clause of the walk that a refused edge closes, where these are the literals that have edges.
pub fn add_cycle(
    alloc: Global,
    trail: &Trail,
    links: &Links,
    orders: &[Lit],
    graph: &Graph,
    bounds: &[Bound],
    atoms: &AtomTable,
    derived: &mut Derived,
) -> Result<ClauseRef, AllocError>
    requires orders { All (IsOrderAmong MAX_NODES) atoms.now }
    requires links { AreLinks atoms.now links.now }
    requires vars { trail.now.vars ≡ length atoms.now }
    requires linked { orders.now ≡ linked links.now (literals trail.now.entries) }
    requires stuck { IsStuckOver (length bounds.now) derived.old.db links.now trail.now graph.now }
    requires clause_room { length derived.old.db < 2 ^ 32 - 1 }
    requires line_room { length derived.old.lines < 2 ^ 32 - 1 }
    ensures clauses { OnOk result (length derived.new.db ≡ length derived.old.db + 1) }
    ensures kept { OnOk result (Extends derived.old.db derived.new.db) }
    ensures lines { OnOk result (length derived.new.lines ≡ length derived.old.lines + 1) }
    ensures lessons { OnOk result (lessons derived.new.lines ≡ lessons derived.old.lines) }
    ensures settled { OnOk result (All IsSettled derived.old.cites → All IsSettled derived.new.cites) }
    ensures conflicted { IfOk result (IsFalseWhereStuck (length bounds.now) derived.old.db derived.new.db links.now trail.now graph.now) }
    ensures derives { OnOk result (KeepsRecordWhereStuck bounds.now atoms.now links.now trail.now graph.now derived.old derived.new) }
    ensures spending { OnOk result (KeepsSpending derived.old derived.new) }
{
    // The held edges have a solution, and each atom has one variable.
    graphs_are_solved(graph);
    let _ = atoms.len();
    let steps = steps_of(alloc, bounds, orders, atoms, graph.cycle())?;
    let lits = denied(alloc, bounds.len(), orders, graph.cycle())?;
    derived.add(&lits, Line::Cycle(steps))
}

// The line of a clause that held clauses refute the negations of.
pub fn learnt(
    alloc: Global,
    atoms: &AtomTable,
    derived: &Derived,
    lits: &[Lit],
    refs: &[ClauseRef],
) -> Result<Line, AllocError>
    requires lits { All (λ l. l.var < length atoms.now) lits.now }
    requires refs { All (λ c. c < length derived.now.cites) refs.now }
    ensures line { IfOk result (IsLearnLine (read_clause atoms.now lits.now) (map (cite_at derived.now.cites) refs.now)) }
{
    Ok(Line::Learn {
        lits: read_lits(alloc, atoms, lits)?,
        hints: read_hints(alloc, &derived.cites, refs)?,
    })
}

/// Adds a learned clause with its line.
pub fn add_learned(
    alloc: Global,
    atoms: &AtomTable,
    learned: &Learned,
    derived: &mut Derived,
) -> Result<(), AllocError>
    requires lits { All (λ l. l.var < length atoms.now) learned.now.lits }
    requires refs { All (λ c. c < length derived.old.cites) learned.now.hints }
    requires once { HasVarsOnce learned.now.lits }
    requires clause_room { length derived.old.db < 2 ^ 32 - 1 }
    requires line_room { length derived.old.lines < 2 ^ 32 - 1 }
    ensures clause { OnOk result (derived.new.db ≡ derived.old.db ++ learned.now.lits ∷ []) }
    ensures cite { OnOk result (derived.new.cites ≡ derived.old.cites ++ hint.Line (length derived.old.lines + 1) ∷ []) }
    ensures line { OnOk result (AddsLearnLine atoms.now learned.now derived.old derived.new) }
{
    let lits = learned.lits.as_slice();
    let line = learnt(alloc, atoms, derived, lits, learned.hints.as_slice())?;
    derived.add(lits, line)?;
    Ok(())
}
