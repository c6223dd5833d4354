//! What right lines of derivations show, which lines are right, and which steps exclude every timing.
#![tactic(auto)]

mod atoms;
mod check;
mod checker;
mod clauses;
mod conflict;
mod cycle;
mod cycle_walk;
mod given;
mod guesses;
mod judge;
mod kept;
mod laws;
mod places;
mod range;
mod refutation;
mod taking;
mod walk;

pub use check::{Check, TextCheck};
pub use checker::Checker;
pub use cycle::check_cycle;
pub use cycle_walk::CycleWalk;
pub use laws::{refuted_is_no_value, right_lines_hold};
