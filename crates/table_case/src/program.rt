//! A program that reads a table and writes what is asked for.

use crate::{Table, answers};
use mt_port::{FileShelf, StdSink, read_all, write_all};
use std::process::ExitCode;
use std::rt::Files;

/// The most bytes of a table.
const LIMIT: usize = 1_048_576;

// What the table on the standard input asks for.
fn answered<T: Table, R: Files + Input + AllocGlobal>(rt: &R, table: &mut T) -> Option<Vec<u8>> {
    let mut shelf = FileShelf::new(rt);
    let lines = read_all(rt.alloc(), &mut shelf, "-", LIMIT).ok()?;
    answers(rt.alloc(), table, &lines)
}

/// Answers the table on the standard input. The status is 0, and 1 where something can't be read, answered or written.
pub fn run<T: Table, R: Files + Input + Print + AllocGlobal>(rt: &R, table: &mut T) -> ExitCode {
    let Some(text) = answered(rt, table) else {
        return ExitCode::from(1);
    };
    let mut out = StdSink::new(rt);
    match write_all(&mut out, &text) {
        Ok(()) => ExitCode::from(0),
        Err(_) => ExitCode::from(1),
    }
}
