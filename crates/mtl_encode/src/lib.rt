//! The clauses and difference constraints that say of a log, the nodes of a formula and a truth value that
//! some admissible timing gives the formula that value.
#![tactic(auto)]

mod asked;
mod clauses;
mod demands;
mod encoding;
mod held;
mod known;
mod laws;
mod listing;
mod needless;
mod problem;
mod pulses;
mod scene;
mod variables;
mod windows;
mod workspace;

pub use asked::Most;
pub use encoding::{encode, encode_asked, encode_by};
pub use known::order_value;
pub use laws::{meanings_satisfy_rules, rules_are_exact};
pub use problem::{Part, Problem};
pub use question::size_of;
