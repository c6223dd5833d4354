//! Whether a log admits a timing and whether a formula of metric temporal logic (Koymans 1990) is true
//! in it. A `Replayer` judges many timings in memory that it took when it was made; `truth_by` judges
//! one, and takes its own.
#![tactic(auto)]

mod columns;
mod evaluator;
mod operators;
mod replayer;
mod states;
mod sweep;
mod timeline;

pub use replayer::{Replayer, truth_by};
