//! Difference constraints held one after another: each new one is kept, or refused by a closed walk
//! of negative sum, and the last ones can be taken back.
#![tactic(auto)]

mod gaps;
mod graph;
mod held;
mod met;
mod push;
mod queue;
mod repair;
mod subtraction;
mod trace;
mod waiting;
mod work;

pub use graph::{Graph, graphs_are_solved};
pub use push::Push;
