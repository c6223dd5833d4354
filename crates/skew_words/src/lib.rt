//! Which words are which command, and reading them with `clap`.
#![tactic(auto)]

mod call;
mod given;
mod limits;
mod matches;
mod normal;
mod numbers;
mod operands;
mod table;
mod values;
mod words;

pub use call::Call;
pub use limits::{DEFAULT_CONFLICTS, MAX_CONFLICTS, MAX_EVENT, MAX_WIDENING, limits_are_numbers};
pub use matches::call_of;
pub use table::Verb;
pub use words::{Spoken, spoken_of};
