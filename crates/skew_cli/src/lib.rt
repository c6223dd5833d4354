//! What the program does: the command that its words are, its files, and what it writes.
#![tactic(auto)]

mod audit;
mod check;
mod demo;
mod json;
mod laws;
mod limits;
mod program;
mod report_file;
mod trim;

pub use demo_log::demo_log;
pub use laws::{
    accepted_files_are_true, checks_are_accepted, checks_are_exact, demo_unknown_is_bounded,
    demos_are_exact, trims_are_accepted, unknown_is_bounded, witnesses_are_replayed,
};
pub use limits::limits_are_numbers;
pub use program::run;
pub use skew_answers::Status;
