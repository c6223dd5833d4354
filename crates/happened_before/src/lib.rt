//! Happened-before over the events of a log (Lamport 1978), by vector clocks.
#![tactic(auto)]

mod causes;
mod cycle;
mod laws;
mod order;
mod progress;

pub use laws::clocks_tell_order;
pub use order::{Order, OrderFault};
