//! Log files: the log that a file's bytes are, or the first fault with its record, and a log's text.
#![tactic(auto)]

mod bound;
mod clock;
mod columns;
mod entry;
mod fault;
mod fields;
mod kind;
mod latency;
mod laws;
mod reader;
mod reading;
mod records;
mod version;
mod writer;

pub use fault::LogFault;
pub use fields::{Field, Fields, RecordList};
pub use laws::{logs_are_plain, logs_are_valid, no_file_lacks_memory};
pub use reader::{read_log, read_records};
pub use writer::{texts_read_back, write_log};
