//! The reports of a table:
//!
//! - `>`: a line of a text; `/`: a last line that no newline ends.
//! - `?`: what the text is, in words. It is read, and the next one begins.
//!
//! The words are written again, with the answer after them: `report` and the text of the report, or `syntax` and
//! the number of the first faulty line.

use report_text::{Report, ReportFault, has_spelling, print_report, read_report};
use std::alloc::Global;
use table_case::{Table, push_line, push_marked, push_shown};

/// The text of a report.
#[derive(Drop)]
pub struct Reports {
    text: Vec<u8>,
}

// Adds a report, if it has a spelling.
fn push_report(alloc: Global, report: &Report, out: &mut Vec<u8>) -> Option<()> {
    if !has_spelling(alloc, report).ok()? {
        return None;
    }
    push_line(out, b"report")?;
    out.extend_from_slice(&print_report(alloc, report).ok()?)
        .ok()
}

// Adds what a text is.
fn push_answer(alloc: Global, text: &[u8], out: &mut Vec<u8>) -> Option<()> {
    if text.len() >= 1 << 31 {
        return None;
    }
    match read_report(alloc, text) {
        Ok(report) => push_report(alloc, &report, out),
        Err(ReportFault::Syntax { line }) => push_shown(alloc, out, format_args!("syntax {line}")),
        Err(ReportFault::Memory) => None,
    }
}

impl Reports {
    /// An empty text.
    pub fn new(alloc: Global) -> Reports {
        Reports {
            text: Vec::new(alloc),
        }
    }
}

impl Table for Reports {
    fn take(&mut self, alloc: Global, mark: u8, text: &[u8], out: &mut Vec<u8>) -> Option<()> {
        match mark {
            b'>' => push_line(&mut self.text, text),
            b'/' => self.text.extend_from_slice(text).ok(),
            b'?' => {
                push_marked(out, mark, text)?;
                push_answer(alloc, &self.text, out)?;
                self.text.clear();
                Some(())
            }
            _ => Some(()),
        }
    }
}
