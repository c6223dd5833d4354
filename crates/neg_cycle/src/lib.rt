//! Systems of difference constraints, each solved or refuted by a closed walk of negative sum.
#![tactic(auto)]

mod laws;
mod outcome;
mod search;
mod system;

pub use laws::{limits_are_numbers, potential_excludes_cycles, systems_have_outcomes};
pub use outcome::{Numbers, Outcome, Places};
pub use search::solve;
pub use system::{Edge, EdgeList, MAX_BOUND, MAX_EDGES, MAX_NODES, is_system};
