//! By how much all skews of a log have to grow at least so that a formula can have a value: a timing shows that it
//! can, and lines that with one less it can't.
#![tactic(auto)]

mod bracket;
mod finding;
mod laws;
mod reach;
mod tolerance;
mod turn;
mod widening;

pub use finding::least;
pub use laws::{limit_is_a_number, right_tolerances_are_least, skews_may_grow, values_may_grow};
pub use question::QuestionFault as ToleranceFault;
pub use tolerance::Tolerance;
pub use widening::MAX_WIDENING;
