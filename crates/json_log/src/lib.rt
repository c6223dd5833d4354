//! Logs in JSON: the log that a JSON file is, or why it is none.
#![tactic(auto)]

mod entry;
mod fault;
mod key;
mod look;
mod reader;
mod records;

pub use fault::JsonFault;
pub use reader::read_json;
