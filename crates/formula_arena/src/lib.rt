//! The nodes of formulas of metric temporal logic: the distinct subtrees of their cores, each held once (hash-consing).
#![tactic(auto)]

mod arena;
mod direction;
mod fault;
mod laws;
mod node;
mod walk;

pub use arena::{Arena, MAX_NODES};
pub use direction::Direction;
pub use fault::ArenaFault;
pub use laws::{cores_are_cores, limit_is_a_number, nodes_are_subtrees, truth_of_core};
pub use node::Core;
