//! What is asked: a formula of metric temporal logic (Koymans 1990) with its nodes, of a log with its bounds; and what
//! is known of it before any search: whether the log admits a timing, how far apart its events can be, and how large the
//! problem is.
#![tactic(auto)]

mod extremes;
mod fault;
mod laws;
mod nodes;
mod question;
mod ready;
mod settled;
mod size;

pub use extremes::{farthest, greatest_between, least_between, nearest};
pub use fault::QuestionFault;
pub use laws::{sizes_are_unique, sizes_fall, small_cubes_are_small};
pub use nodes::Nodes;
pub use question::{Question, question_is_asked};
pub use settled::Settled;
pub use size::{MAX_SIZE, limit_is_a_number, size_of};
