//! What is decided where nothing is left to propagate.

ghost use Rattle.std.specs.Prelude.{◌≡◌, ℕ, ◌<◌, length, false, All, IfOk, IfSome, IsTrue};
ghost use Rattle.propagate.specs.Clauses.{AreSettled};
ghost use Rattle.propagate.specs.Trails.{IsUnassigned};
ghost use Rattle.cdcl_core.specs.Assignments.{IsSatisfying};
ghost use Rattle.cdcl_core.specs.Deciding.{IfDecides, IfDone, IfLost, IsNext};
ghost use Rattle.cdcl_core.specs.Orders.{HasAllLinks, IsOrderAmong};
ghost use Rattle.cdcl_core.specs.Running.{IsRunning};

use crate::assignment::{unassigned, values_of};
use crate::conflict::Theory;
use crate::read_off::{meet_all, values_in};
use crate::sight::Sight;
use crate::strategy::Strategy;
use clause_db::Lit;
use difference_graph::graphs_are_solved;
use mt_model::Bits;
use propagate::Trail;
use std::alloc::{AllocError, Global};

/// What is done next.
#[derive(Drop)]
pub enum Decision {
    /// Nothing: these values of the variables satisfy the problem with the graph's numbers.
    Done(Bits),
    /// This literal is decided. Then no variable below the start is unassigned.
    Decide { lit: Lit, start: u32 },
    /// Each variable is assigned, and an order that has no edges may have the other value in the present timing.
    Lost,
}

// The literal, if its variable is unassigned.
fn open(trail: &Trail, vars: u32, lit: Lit) -> Option<Lit>
    requires vars { trail.now.vars ≡ vars }
    ensures open { IfSome result (λ l. (l.var < vars) × IsUnassigned trail.now.entries l.var) }
{
    if lit.var().get() < vars && trail.value(lit.var()).is_none() {
        Some(lit)
    } else {
        None
    }
}

/// What is done next, where no variable below the start is unassigned. An error is want of memory.
pub fn next(
    alloc: Global,
    theory: &Theory,
    sight: &Sight<'_>,
    strategy: &mut Strategy,
    start: u32,
) -> Result<Decision, AllocError>
    requires running { IsRunning sight.now.vars sight.now.db.now sight.now.links.now sight.now.trail.now sight.now.graph.now }
    requires orders { All (IsOrderAmong sight.now.graph.now.nodes) theory.now.atoms }
    requires all_links { IsTrue theory.now.whole → HasAllLinks theory.now.atoms sight.now.links.now }
    requires count { length theory.now.atoms ≡ sight.now.vars }
    requires settled { AreSettled sight.now.trail.now.entries sight.now.db.now }
    requires before { (w : ℕ) → w < start → IsUnassigned sight.now.trail.now.entries w → ⊥ }
    ensures done { IfOk result (IfDone (IsSatisfying theory.now.atoms sight.now.db.now sight.now.graph.now.numbers)) }
    ensures decides { IfOk result (IfDecides (IsNext sight.now.vars sight.now.trail.now.entries)) }
    ensures lost { IfOk result (IfLost (theory.now.whole ≡ false)) }
{
    if !strategy.fills() {
        if let Some(decision) = repair(alloc, theory, sight, strategy, start)? {
            return Ok(decision);
        }
        strategy.fill();
    }
    fill(alloc, theory, sight, strategy, start)
}

// Decides what repairs the present timing, or reads all values off it; None where these don't meet all clauses.
fn repair(
    alloc: Global,
    theory: &Theory,
    sight: &Sight<'_>,
    strategy: &mut Strategy,
    start: u32,
) -> Result<Option<Decision>, AllocError>
    requires orders { All (IsOrderAmong sight.now.graph.now.nodes) theory.now.atoms }
    requires before { (w : ℕ) → w < start → IsUnassigned sight.now.trail.now.entries w → ⊥ }
    ensures done { IfOk result (λ o. IfSome o (IfDone (IsSatisfying theory.now.atoms sight.now.db.now sight.now.graph.now.numbers))) }
    ensures decides { IfOk result (λ o. IfSome o (IfDecides (IsNext sight.now.vars sight.now.trail.now.entries))) }
    ensures found { IfOk result (λ o. IfSome o (IfLost ⊥)) }
{
    if let Some(choice) = strategy.decision(*sight)? {
        if let Some(lit) = open(sight.trail, sight.vars, choice) {
            return Ok(Some(Decision::Decide { lit, start }));
        }
    }
    read(alloc, theory, sight, strategy)
}

// Reads all values off the present timing, where these meet all clauses.
fn read(
    alloc: Global,
    theory: &Theory,
    sight: &Sight<'_>,
    strategy: &mut Strategy,
) -> Result<Option<Decision>, AllocError>
    requires orders { All (IsOrderAmong sight.now.graph.now.nodes) theory.now.atoms }
    ensures done { IfOk result (λ o. IfSome o (IfDone (IsSatisfying theory.now.atoms sight.now.db.now sight.now.graph.now.numbers))) }
    ensures decides { IfOk result (λ o. IfSome o (IfDecides (λ lit start. ⊥))) }
    ensures found { IfOk result (λ o. IfSome o (IfLost ⊥)) }
{
    let values = values_in(alloc, &theory.atoms, sight, strategy)?;
    if meet_all(values.as_slice(), sight.db) {
        Ok(Some(Decision::Done(values)))
    } else {
        Ok(None)
    }
}

// Decides the unassigned variable with the least number, as the present timing has it.
fn fill(
    alloc: Global,
    theory: &Theory,
    sight: &Sight<'_>,
    strategy: &mut Strategy,
    start: u32,
) -> Result<Decision, AllocError>
    requires running { IsRunning sight.now.vars sight.now.db.now sight.now.links.now sight.now.trail.now sight.now.graph.now }
    requires orders { All (IsOrderAmong sight.now.graph.now.nodes) theory.now.atoms }
    requires all_links { IsTrue theory.now.whole → HasAllLinks theory.now.atoms sight.now.links.now }
    requires count { length theory.now.atoms ≡ sight.now.vars }
    requires settled { AreSettled sight.now.trail.now.entries sight.now.db.now }
    requires before { (w : ℕ) → w < start → IsUnassigned sight.now.trail.now.entries w → ⊥ }
    ensures done { IfOk result (IfDone (IsSatisfying theory.now.atoms sight.now.db.now sight.now.graph.now.numbers)) }
    ensures decides { IfOk result (IfDecides (IsNext sight.now.vars sight.now.trail.now.entries)) }
    ensures lost { IfOk result (IfLost (theory.now.whole ≡ false)) }
{
    graphs_are_solved(sight.graph);
    match unassigned(sight.trail, start, sight.vars) {
        None if theory.whole => Ok(Decision::Done(values_of(alloc, sight.trail, sight.vars)?)),
        None => Ok(Decision::Lost),
        Some(var) => {
            let value = strategy.holds(*sight, Lit::new(var, true))?;
            Ok(Decision::Decide {
                lit: Lit::new(var, value),
                start: var.get() + 1,
            })
        }
    }
}
