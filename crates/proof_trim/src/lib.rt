//! Derivations without the lines that their last line does not need.
#![tactic(auto)]

mod copy;
mod fault;
mod hints;
mod laws;
mod named;
mod naming;
mod needed;
mod text_copy;
mod text_needed;
mod text_trimming;
mod trimming;

pub use fault::TrimFault;
pub use laws::trims_keep_refuting;
pub use text_trimming::{TrimmedText, trim_text};
pub use trimming::trim;
