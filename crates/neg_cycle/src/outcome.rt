//! What solving a system of difference constraints finds.

use mt_list::ListOf;

/// Numbers of nodes, that of node 0 first.
pub type Numbers = ListOf<i128>;

/// Places of edges, in the order of a walk.
pub type Places = ListOf<u32>;

/// A solution of a system, or why it has none.
#[derive(Drop)]
pub enum Outcome {
    /// A number for each node that meets every edge.
    Potential(Numbers),
    /// The places of the edges of a negative cycle: a closed walk of negative sum that visits no node twice.
    Cycle(Places),
}
