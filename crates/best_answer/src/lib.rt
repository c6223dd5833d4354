//! What both searches for a best answer need: what they aim at, a search for it in one log, and how far bounds can grow with
//! the walks of lines staying negative.
#![tactic(auto)]

mod aim;
mod growing;
mod searching;
mod slack;

pub use aim::Aim;
pub use growing::{Growing, clamped};
