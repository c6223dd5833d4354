//! By how much all skews have to grow for a formula to have a value.

use mt_model::{Steps, Times};
use proof_log::Lines;

/// By how much all skews of a log have to grow at least, in the log's unit of time, so that a formula can have a value.
#[derive(Drop)]
pub enum Tolerance {
    /// By s: the timing shows that the formula can then have the value, and the lines that it can't where the skews grow
    /// by s - 1. There are no lines where s is 0.
    Least {
        s: u64,
        times: Times,
        below: Option<Lines>,
    },
    /// By more than the greatest widening, with which these lines refute the value.
    Never {
        lines: Lines,
    },
    /// With the greatest widening no timing is admissible: these bounds are in conflict.
    Inconsistent(Steps),
    /// The search at the widening s spent its budget, as these lines show.
    Unknown {
        s: u64,
        lines: Lines,
    },
}
