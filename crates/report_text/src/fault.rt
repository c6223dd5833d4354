//! What is wrong with the text of a report.

use std::alloc::AllocError;
use thiserror::Error;

/// What is wrong with the text of a report, or want of memory.
#[derive(Clone, Copy, Debug, Error)]
pub enum ReportFault {
    /// The first line, counted from 1, with which no report begins.
    #[error("line {line} is no line of a report")]
    Syntax { line: u32 },
    /// Want of memory.
    #[error("out of memory")]
    Memory,
}
