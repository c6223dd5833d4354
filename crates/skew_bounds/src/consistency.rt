//! Whether the bounds of a log can be met: a timing, or a closed walk of bounds in conflict.

ghost use Rattle.std.specs.Prelude.{◌≡◌, ◌<◌, length, map, All, IsSome, IfOk};
ghost use Rattle.mt_model.specs.Bounds.{step_of as step_of_bound};
ghost use Rattle.mt_model.specs.Walks.{edge_of, node_count_of};
ghost use Rattle.neg_cycle.specs.Systems.{IsEdge};
ghost use Rattle.skew_bounds.specs.Consistency.{Settles};
ghost use Rattle.skew_bounds.specs.Edges.{AreEdges, bound_at};
ghost use Rattle.skew_bounds.specs.System.{IsSystemOf};

use crate::edges::{edge_by, node_count};
use crate::steps::step_of;
use crate::system::{BoundSystem, system_of};
use crate::times::times_of;
use mt_model::{Bound, Log, Step, Steps, Times, bounds_are_admissible, log_is_valid};
use neg_cycle::{EdgeList, Outcome, solve};
use std::alloc::{AllocError, Global};

/// Whether the bounds of a log can be met, with the witness of it.
#[derive(Drop)]
pub enum Consistency {
    /// An admissible timing: a true time for each row, in the order of the rows and the log's unit of time.
    Timing(Times),
    /// Bounds of the log whose edges form a closed walk of negative sum, in the order of the walk, so that
    /// no timing is admissible. The walk visits no node twice.
    Conflict(Steps),
}

/// The edges of bounds of the log, place by place. An error is want of memory.
pub fn edges_of(alloc: Global, log: &Log, bounds: &[Bound]) -> Result<EdgeList, AllocError>
    requires { All (λ b. IsSome (edge_of log.now (step_of_bound b))) bounds.now }
    ensures edges { IfOk result (AreEdges log.now bounds.now) }
    ensures within { IfOk result (λ edges. All (IsEdge (node_count_of log.now)) edges) }
{
    let spans = log.spans(alloc)?;
    let mut edges = EdgeList::new(alloc);
    for bound in bounds {
        match edge_by(log, spans.as_slice(), *bound) {
            Some(edge) => edges.push(edge)?,
            None => unreachable!(),
        }
    }
    Ok(edges)
}

// The bounds at these places, as steps.
fn steps_of(alloc: Global, bounds: &[Bound], places: &[u32]) -> Result<Steps, AllocError>
    requires { All (λ p. p < length bounds.now) places.now }
    ensures { IfOk result (λ steps. steps ≡ map (λ p. step_of_bound (bound_at bounds.now p)) places.now) }
{
    let mut steps = Steps::new(alloc);
    for place in places {
        steps.push(step_of(bounds[*place as usize]))?;
    }
    Ok(steps)
}

/// An admissible timing of the log, or bounds of it in conflict. A log never has both.
pub fn settle(alloc: Global, log: &Log) -> Result<Consistency, AllocError>
    ensures answer { IfOk result (Settles log.now) }
{
    let system = system_of(alloc, log)?;
    settle_by(alloc, log, &system)
}

/// The same where the bounds and their edges are known already.
pub fn settle_by(alloc: Global, log: &Log, system: &BoundSystem) -> Result<Consistency, AllocError>
    requires system { IsSystemOf log.now system.now }
    ensures answer { IfOk result (Settles log.now) }
{
    bounds_are_admissible();
    log_is_valid(log);
    let outcome = solve(alloc, node_count(log), system.edges.as_slice())?;
    match outcome {
        Outcome::Potential(numbers) => {
            let times = times_of(alloc, log.rows().len(), numbers.as_slice())?;
            Ok(Consistency::Timing(times))
        }
        Outcome::Cycle(places) => {
            let steps = steps_of(alloc, system.bounds.as_slice(), places.as_slice())?;
            Ok(Consistency::Conflict(steps))
        }
    }
}
