//! Numbers of nodes that meet edges and give one node 0, none below what a solution as near to 0 as a log's times has there.

ghost use Rattle.std.specs.Prelude.{◌<◌, length, IfOk, IfSome};
ghost use Rattle.skew_bounds.specs.Incoming.{IsLatest, IsNear, IsNetwork, lists_of};
ghost use Rattle.skew_bounds.specs.Beginning.{IsNearLatest};

use crate::beginning::beginning;
use crate::column::FAR;
use crate::lowering::{ahead, lower_before, waiting_at};
use neg_cycle::Edge;
use std::alloc::{AllocError, Global};
use std::collections::BinaryHeap;

/// At least what one solution within the limit of times can be above another where both give one node 0.
pub const UNREACHED: i128 = 2 * FAR;

/// Numbers that meet all edges and give a node 0, none below what a solution as near to 0 as a log's times
/// has there (Dijkstra, A note on two problems in connexion with graphs, 1959), in the unit of the bounds.
///
/// `incoming` has for each node the edges that end there. `potential` meets them all, and says from which
/// node to go on, and `zero` are these numbers for the zero moment, where they are known: what the clauses
/// say depends on neither, and how long the search takes on both. An error is want of memory.
pub fn latest(
    alloc: Global,
    incoming: &[Vec<Edge>],
    potential: &[i128],
    zero: Option<&[i128]>,
    node: u32,
) -> Result<Vec<i128>, AllocError>
    requires network { IsNetwork (lists_of incoming.now) }
    requires potential { IsNear (lists_of incoming.now) potential.now }
    requires zero { IfSome zero (λ numbers. IsNearLatest (lists_of incoming.now) numbers.now) }
    requires node { node < length incoming.now }
    ensures latest { IfOk result (λ numbers. IsLatest (lists_of incoming.now) node numbers.items) }
{
    let mut numbers = beginning(alloc, incoming, potential, zero, node)?;
    let mut waiting = BinaryHeap::new(alloc);
    waiting.push(waiting_at(potential, node, 0))?;
    while let Some(next) = waiting.pop() {
        // A node that was lowered again since then waits with its new number too.
        if next.ahead != ahead(potential, &numbers, next.node) {
            continue;
        }
        lower_before(
            &incoming[next.node as usize],
            next.node,
            potential,
            &mut numbers,
            &mut waiting,
        )?;
    }
    Ok(numbers)
}
