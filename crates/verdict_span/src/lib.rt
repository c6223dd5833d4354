//! How long after one event of a log another can come at most where a formula has a value: a timing shows how long, and
//! lines that it can't come later.
#![tactic(auto)]

mod climb;
mod finding;
mod greatest;
mod laws;
mod reach;
mod spacing;
mod span;
mod turn;

pub use finding::widest;
pub use greatest::Widest;
pub use laws::{extras_keep_truth, extras_only_exclude, right_spans_are_greatest};
pub use question::QuestionFault as SpanFault;
