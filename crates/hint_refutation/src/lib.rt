//! The words of refutation by hints, over any type of literals with a negation, and their laws.
//!
//! A hint is a clause that a step of a derivation cites for its reverse unit propagation, as in the proof format
//! LRAT (Cruz-Filipe, Heule, Hunt, Kaufmann and Schneider-Kamp 2017).
#![tactic(auto)]

mod laws;

pub use laws::{
    assumed_is_set, assumed_may_grow, closed_by_clauses, closed_has_reached, closed_is_not_refuted,
    given_is_determined, hints_are_sound, refuted_assumptions_fail, refuters_give,
    settled_is_closed, steps_are_forced, whole_reached_is_closed, words_are_carried, worked_cases,
};
