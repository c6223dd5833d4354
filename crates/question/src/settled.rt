//! Whether the bounds of a log can be met.

use mt_model::{Steps, Times};
use skew_bounds::Tight;

/// Whether the bounds of a log can be met.
#[derive(Drop)]
pub enum Settled {
    /// By this timing, a true time for each row; and how far apart rows are over all timings that the log admits.
    Timing { times: Times, tight: Tight },
    /// They can't: the edges of these bounds form a closed walk of negative sum, in its order.
    Conflict(Steps),
}
