//! What the commands of best answers give, from their files to bytes and a status: `tolerance`, by how much all skews of a
//! log have to grow at least so that a formula can have a value, and `span`, how long after one event another comes at most
//! where it has the value.
#![tactic(auto)]

mod laws;
mod sections;
mod span_text;
mod spanning;
mod tolerance_text;
mod tolerating;

pub use laws::{spans_are_best, tolerances_are_best};
pub use spanning::{Distance, span};
pub use tolerating::{Widening, tolerance};
