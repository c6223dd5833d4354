//! Files of times: a line for each row of a log, with its true time.
#![tactic(auto)]

mod fault;
mod reader;

pub use fault::TimesFault;
pub use reader::read_times;
