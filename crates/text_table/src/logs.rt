//! How logs come about, and what is asked of them. After its mark a line has a word, which says what the rest is:
//!
//! - `+`: a part of a log that is to come, and `=`: a log of these parts, or of the last log (`src/logs/parts.rt`,
//!   `src/logs/making.rt`). The log is told in one line, or what is wrong with it.
//! - `?`: a question on the last log (`src/logs/on_logs.rt`, `src/logs/on_bounds.rt`, `src/logs/on_timings.rt`,
//!   `src/logs/on_orders.rt`).
//! - `:`: a question that needs no log (`src/logs/on_words.rt`).
//! - `*`: a number and a line, which is taken so often, `#` in it being the number of the time, from 0.
//!
//! In a text, a field or a name `%` with two hexadecimal digits is the byte of that number. Each line is written
//! again, and two spaces stand before what it asks for.

mod making;
mod on_bounds;
mod on_logs;
mod on_orders;
mod on_timings;
mod on_words;
mod parts;
mod steps;

use crate::logs::making::{built, read, tell_built};
use crate::logs::parts::Parts;
use crate::telling::push_numbered;
use mt_model::Log;
use std::alloc::Global;
use table_case::{Table, number_of, push_marked, split_word, text_of};

/// The parts of a log that is to come, and the last log.
#[derive(Drop)]
pub struct Logs {
    parts: Parts,
    log: Option<Log>,
}

// A text, with a number where it has `#`.
fn numbered(alloc: Global, text: &str, number: u32) -> Option<String> {
    let mut numbered = String::new(alloc);
    push_numbered(text, number, &mut numbered)?;
    Some(numbered)
}

impl Logs {
    /// No part of a log, and no last log.
    pub fn new(alloc: Global) -> Logs {
        Logs {
            parts: Parts::new(alloc),
            log: None,
        }
    }

    // Makes a log, which is the last one from then on, and adds what it is.
    fn make(&mut self, alloc: Global, word: &str, rest: &str, out: &mut Vec<u8>) -> Option<()> {
        if word == "read" || word == "records" {
            self.log = read(alloc, &mut self.parts, word, rest, out)?;
            return Some(());
        }
        let log = self.log.take();
        self.log = built(alloc, &mut self.parts, log, word, rest);
        tell_built(alloc, &self.log, out)
    }

    // Takes in what a line says, and adds what it asks for.
    fn take_line(&mut self, alloc: Global, mark: u8, line: &str, out: &mut Vec<u8>) -> Option<()> {
        let (word, rest) = split_word(line);
        match mark {
            b'+' => self.parts.take(alloc, word, rest),
            b'=' => self.make(alloc, word, rest, out),
            b'?' => on_logs::answer(alloc, word, rest, self.log.as_ref()?, out),
            b':' => on_words::answer(alloc, word, rest, out),
            _ => None,
        }
    }

    // Takes in a line so many times.
    fn take_times(&mut self, alloc: Global, line: &str, out: &mut Vec<u8>) -> Option<()> {
        let (count, line) = split_word(line);
        let (mark, text) = split_mark(line)?;
        let count = number_of(count)?;
        for number in 0..count {
            let text = numbered(alloc, text, number)?;
            self.take_line(alloc, mark, text.as_str(), out)?;
        }
        Some(())
    }
}

// The mark of a line, and the text after it.
fn split_mark(line: &str) -> Option<(u8, &str)> {
    let (mark, text) = line.as_bytes().split_first()?;
    Some((*mark, text_of(text)?))
}

impl Table for Logs {
    fn take(&mut self, alloc: Global, mark: u8, text: &[u8], out: &mut Vec<u8>) -> Option<()> {
        push_marked(out, mark, text)?;
        let line = text_of(text)?;
        if mark == b'*' {
            self.take_times(alloc, line, out)
        } else {
            self.take_line(alloc, mark, line, out)
        }
    }
}
