//! Conflict analysis: the clause of the first unique implication point, and the clauses that imply it.
#![tactic(auto)]

mod conflict;
mod mark;
mod places;
mod resolve;

pub use conflict::{ClauseRefList, Learned, LitList, learn, refute};
