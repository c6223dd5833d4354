//! Decimal numbers: the number that bytes write, within a limit.
#![tactic(auto)]

mod laws;
mod reader;

pub use laws::{numbers_are_decimal, signed_numbers_are_decimal};
pub use reader::{number, signed_number, unsigned_number};
