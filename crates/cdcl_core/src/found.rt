//! What a search finds.

use mt_model::{Bits, Times};
use proof_log::Lines;

/// What a search found.
#[derive(Drop)]
pub enum Found {
    /// A truth value for each atom and a number for each node, which satisfy the problem.
    Model { values: Bits, potentials: Times },
    /// Lines that refute.
    Refuted(Lines),
    /// Lines that derive, with as many clauses learnt as the budget.
    Spent(Lines),
}
