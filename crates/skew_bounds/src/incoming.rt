//! Edges by the nodes where they end.

ghost use Rattle.std.specs.Prelude.{◌≡◌, ◌<◌, ◌++◌, ◌∷◌, [], length, replicate, slice_set, All, IfOk, OnOk};
ghost use Rattle.neg_cycle.specs.Systems.{IsEdge};
ghost use Rattle.skew_bounds.specs.Incoming.{AreIncoming, ending_at, lists_of};

use neg_cycle::Edge;
use std::alloc::{AllocError, Global};

// An empty list for each node.
fn empty(alloc: Global, nodes: usize) -> Result<Vec<Vec<Edge>>, AllocError>
    ensures { IfOk result (λ lists. lists_of lists.items ≡ replicate nodes []) }
{
    let mut lists = Vec::new(alloc);
    for _node in 0..nodes {
        lists.push(Vec::new(alloc))?;
    }
    Ok(lists)
}

// Adds an edge to the list of the node where it ends.
fn add(lists: &mut [Vec<Edge>], edge: Edge) -> Result<(), AllocError>
    requires { edge.to < length lists.old }
    ensures { OnOk result (lists_of lists.new ≡ slice_set (lists_of lists.old) edge.to (ending_at (lists_of lists.old) edge.to ++ edge ∷ [])) }
{
    lists[edge.to as usize].push(edge)?;
    Ok(())
}

/// For each of so many nodes the edges that end there, in their order.
pub fn incoming_of(
    alloc: Global,
    nodes: usize,
    edges: &[Edge],
) -> Result<Vec<Vec<Edge>>, AllocError>
    requires { All (IsEdge nodes) edges.now }
    ensures { IfOk result (λ lists. AreIncoming nodes edges.now (lists_of lists.items)) }
{
    let mut lists = empty(alloc, nodes)?;
    for edge in edges {
        add(&mut lists, *edge)?;
    }
    Ok(lists)
}
