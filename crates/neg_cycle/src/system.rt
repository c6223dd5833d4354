//! Difference constraints, and the limits of a system of them.

ghost use Rattle.std.specs.Prelude.{◌↔◌, IsTrue};
ghost use Rattle.neg_cycle.specs.Systems.{IsEdge, IsSystem};

use mt_list::ListOf;

/// The most nodes of a system.
pub const MAX_NODES: u32 = 1 << 20;

/// The most edges of a system.
pub const MAX_EDGES: usize = 1 << 30;

/// The greatest magnitude of a bound.
pub const MAX_BOUND: i128 = 1 << 90;

/// The difference constraint `x_from - x_to <= bound`, over nodes that count from 0. It is also a step of a
/// walk, which goes from `from` to `to`.
#[derive(Clone, Copy, PartialEq, Eq)]
pub struct Edge {
    /// The node whose number is the minuend, where the step begins.
    pub from: u32,
    /// The node whose number is the subtrahend, where the step ends.
    pub to: u32,
    /// The most that the difference may be, in the unit of the numbers.
    pub bound: i128,
}

/// Edges in order. The place of an edge is its index, from 0.
pub type EdgeList = ListOf<Edge>;

/// Whether these edges over so many nodes are within the limits that `solve` has.
pub fn is_system(nodes: u32, edges: &[Edge]) -> bool
    ensures within { IsTrue result ↔ IsSystem nodes edges.now }
{
    nodes <= MAX_NODES && edges.len() <= MAX_EDGES && edges.iter().all(|edge| is_edge(nodes, *edge))
}

fn is_edge(nodes: u32, edge: Edge) -> bool
    ensures within { IsTrue result ↔ IsEdge nodes edge }
{
    edge.from < nodes && edge.to < nodes && -MAX_BOUND <= edge.bound && edge.bound <= MAX_BOUND
}
