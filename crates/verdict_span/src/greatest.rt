//! How far apart two events are at most where a formula has a value.

use mt_model::{Steps, Times};
use proof_log::Lines;

/// How long after one event another comes at most, in the log's unit of time, in the timings that give a formula a value.
/// Where the other event comes first, it is below 0.
#[derive(Drop)]
pub enum Widest {
    /// At most d: the timing gives the value with this distance, and the lines refute the value where the other event comes at
    /// least d + 1 after the one.
    Greatest {
        d: i128,
        times: Times,
        beyond: Lines,
    },
    /// In no timing: the lines refute the value.
    Never {
        lines: Lines,
    },
    /// No timing is admissible: these bounds are in conflict.
    Inconsistent(Steps),
    /// A search spent its budget, as these lines show: that of the log, or of the log in which the other event comes at
    /// least so long after the one.
    Unknown {
        least: Option<i128>,
        lines: Lines,
    },
}
