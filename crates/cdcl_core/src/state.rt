//! The state of a search.

use crate::conflict::Theory;
use crate::derived::Derived;
use crate::ground::Ground;
use crate::linked::LinkedLits;
use crate::strategy::Strategy;
use difference_graph::Graph;
use propagate::Trail;

/// What a search has: the theory of its problem, the literals that are assigned, the edges that are held and the
/// literals that they are of, the edges of the bounds alone, what was derived, and what it knows when it chooses.
#[derive(Drop)]
pub struct SearchState {
    pub theory: Theory,
    pub trail: Trail,
    pub graph: Graph,
    pub ground: Ground,
    pub linked: LinkedLits,
    pub derived: Derived,
    pub strategy: Strategy,
}
