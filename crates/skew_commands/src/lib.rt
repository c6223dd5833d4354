//! What commands read and what they refuse, and the answers of `times`, `replay` and `order`.
#![tactic(auto)]

pub mod files;
mod formula_and_log;
mod limits;
mod ordering;
mod refusal;
mod replaying;
mod reply;
mod timing;

pub use formula_and_log::{Question, read_question};
pub use limits::{FORMULA_LIMIT, LOG_LIMIT, TIMES_LIMIT, limits_are_numbers};
pub use ordering::order;
pub use refusal::{Named, Refusal, ReportPart};
pub use replaying::replay;
pub use reply::{Reply, Stop};
pub use timing::times;
