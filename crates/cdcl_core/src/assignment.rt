//! What an assignment of all variables says of atoms and nodes.

ghost use Rattle.std.specs.Prelude.{◌≡◌, ℕ, ◌<◌, IfNone, IfOk, IfSome};
ghost use Rattle.propagate.specs.Trails.{IsTrail, IsUnassigned};
ghost use Rattle.cdcl_core.specs.Assignments.{AreValues};

use clause_db::Var;
use difference_graph::{Graph, graphs_are_solved};
use mt_model::{Bits, Times};
use propagate::Trail;
use std::alloc::{AllocError, Global};

/// The unassigned variable with the least number, where each one below the start is assigned.
pub fn unassigned(trail: &Trail, start: u32, vars: u32) -> Option<Var>
    requires vars { trail.now.vars ≡ vars }
    requires before { (w : ℕ) → w < start → IsUnassigned trail.now.entries w → ⊥ }
    ensures some { IfSome result (λ v. (v < vars) × IsUnassigned trail.now.entries v) }
    ensures least { IfSome result (λ v. (w : ℕ) → w < v → IsUnassigned trail.now.entries w → ⊥) }
    ensures none { IfNone result ((v : ℕ) → v < vars → IsUnassigned trail.now.entries v → ⊥) }
{
    for v in start..vars {
        let var = Var::new(v);
        if trail.value(var).is_none() {
            return Some(var);
        }
    }
    None
}

/// The value of each variable; one that is unassigned is false.
pub fn values_of(alloc: Global, trail: &Trail, vars: u32) -> Result<Bits, AllocError>
    requires vars { trail.now.vars ≡ vars }
    requires trail { IsTrail trail.now }
    ensures values { IfOk result (AreValues trail.now) }
{
    let mut values = Bits::new(alloc);
    for v in 0..vars {
        let value = trail.value(Var::new(v));
        values.push(value.unwrap_or(false))?;
    }
    Ok(values)
}

/// The number of each node in one solution of the held edges.
pub fn potentials_of(alloc: Global, graph: &Graph, nodes: u32) -> Result<Times, AllocError>
    requires nodes { graph.now.nodes ≡ nodes }
    ensures potentials { IfOk result (λ numbers. numbers ≡ graph.now.numbers) }
{
    // There is a number for each node.
    graphs_are_solved(graph);
    let mut numbers = Times::new(alloc);
    for node in 0..nodes {
        numbers.push(graph.potential(node))?;
    }
    Ok(numbers)
}
