//! What is said of both truth values of a formula.

use mt_model::{Steps, Times};
use proof_log::Lines;

/// What a report says of a truth value.
#[derive(Drop)]
pub enum Section {
    /// A timing in which the formula has the value: a time for each event, in the log's unit.
    Witness(Times),
    /// A derivation of the empty clause: no admissible timing gives the value.
    Refuted(Lines),
    /// A derivation without the empty clause, which was cut off.
    Unknown(Lines),
}

/// What is said of a log and a formula.
#[derive(Drop)]
pub enum Report {
    /// No timing is admissible: the bounds of a closed walk of negative sum.
    Inconsistent {
        /// How many rows the log has.
        events: u32,
        steps: Steps,
    },
    /// What is said of the formula's being true, and of its being false.
    Verdicts {
        /// How many rows the log has.
        events: u32,
        on_true: Section,
        on_false: Section,
    },
}
