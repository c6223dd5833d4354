//! The demo: the log of a seed, and the formula that is judged of it.
#![tactic(auto)]

mod formula;
mod generator;
mod laws;
mod limits;

pub use formula::demo_formula;
pub use generator::demo_log;
pub use laws::{seeds_are_consistent, seeds_have_logs};
pub use limits::{MAX_SEED, limit_is_a_number};
