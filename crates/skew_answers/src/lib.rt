//! What answers are made of: the statuses, and the bytes of timings, bounds in conflict, clocks and cycles.
#![tactic(auto)]

mod laws;
mod status;
mod texts;

pub use laws::times_read_back;
pub use status::Status;
pub use texts::{written_bound, written_clocks, written_cycle, written_steps, written_times};
