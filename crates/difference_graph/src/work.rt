//! What a push works on.

ghost use Rattle.std.specs.Prelude.{◌≤◌, IfOk};
ghost use Rattle.neg_cycle.specs.declared.system.TheConstants.{MAX_NODES};
ghost use Rattle.difference_graph.specs.Work.{HasWorkRoom};

use crate::waiting::Missed;
use std::alloc::{AllocError, Global};
use std::collections::BinaryHeap;

/// What a push works on. None of it matters between two calls but the walk.
#[derive(Drop)]
pub struct Work {
    /// The edges that wait.
    pub waiting: BinaryHeap<Missed>,
    /// The places of the edges for which a number was lowered, in order.
    pub order: Vec<u32>,
    /// What each of these numbers was.
    pub former: Vec<i128>,
    /// The walk that was found last, by the places of its edges.
    pub walk: Vec<u32>,
}

/// Nothing to work on, with room for so many nodes and edges.
pub fn no_work(alloc: Global, nodes: usize, capacity: usize) -> Result<Work, AllocError>
    requires few { nodes ≤ MAX_NODES }
    ensures room { IfOk result (HasWorkRoom nodes capacity) }
{
    Ok(Work {
        waiting: BinaryHeap::with_capacity(alloc, capacity)?,
        order: Vec::with_capacity(alloc, nodes)?,
        former: Vec::with_capacity(alloc, nodes)?,
        walk: Vec::with_capacity(alloc, nodes + 1)?,
    })
}
