//! Variables, literals, and clauses in the order in which they were added.
#![tactic(auto)]

mod db;
mod ids;
mod laws;
mod lit;
mod renaming;

pub use db::Db;
pub use ids::{ClauseRef, Var};
pub use laws::{added_leaves_held, held_hints_are_sound, negation_is_other, variables_have_values};
pub use lit::Lit;
