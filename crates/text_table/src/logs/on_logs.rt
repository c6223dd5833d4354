//! Questions on a log:
//!
//! - `copy`: its copy. `write`: its text, with `/` for the end of a line. `plain`: whether it is as a text can say.
//! - `takes`: whether it takes an extra bound. `widens`: whether each skew may be so much greater.
//! - `messages`: what each row sends or receives.
//! - `unknown`: the number of the first proposition of a formula whose host is not there.

use crate::logs::making::tell_log;
use crate::logs::on_bounds;
use crate::telling::{name_text, push_part, tell, tell_whether};
use log_read::write_log;
use mt_model::{Act, Log};
use std::alloc::Global;
use table_case::{extra_of, formula_of, number_of, text_of};

// Puts `/` in the place of each newline.
fn join_lines(text: &mut [u8]) {
    for byte in text {
        if *byte == b'\n' {
            *byte = b'/';
        }
    }
}

fn tell_text(alloc: Global, log: &Log, out: &mut Vec<u8>) -> Option<()> {
    if !log.plain() {
        return None;
    }
    let mut text = write_log(alloc, log).ok()?;
    join_lines(&mut text);
    tell(alloc, out, text_of(&text)?)
}

fn push_message(line: &mut String, act: &Act) -> Option<()> {
    match (act.sent(), act.received()) {
        (Some(name), None) => push_part(line, format_args!("sends {}", name_text(name)?)),
        (None, Some(name)) => push_part(line, format_args!("receives {}", name_text(name)?)),
        (None, None) => push_part(line, "neither"),
        (Some(_), Some(_)) => None,
    }
}

fn tell_messages(alloc: Global, log: &Log, out: &mut Vec<u8>) -> Option<()> {
    let mut line = String::new(alloc);
    for row in log.rows() {
        push_message(&mut line, &row.act)?;
    }
    tell(alloc, out, line)
}

fn tell_unknown(alloc: Global, log: &Log, text: &str, out: &mut Vec<u8>) -> Option<()> {
    match formula_of(alloc, text.as_bytes())?.unknown_host(log) {
        Some(number) => tell(alloc, out, number),
        None => tell(alloc, out, "none"),
    }
}

/// Answers a question, which is one on bounds, timings or orders if it isn't one of these.
pub fn answer(alloc: Global, word: &str, rest: &str, log: &Log, out: &mut Vec<u8>) -> Option<()> {
    match word {
        "copy" => tell_log(alloc, &log.copy(alloc).ok()?, out),
        "write" => tell_text(alloc, log, out),
        "plain" => tell_whether(alloc, out, log.plain()),
        "takes" => tell_whether(alloc, out, log.takes_extra(extra_of(rest)?)),
        "widens" => tell_whether(alloc, out, log.takes_widening(number_of(rest)?)),
        "messages" => tell_messages(alloc, log, out),
        "unknown" => tell_unknown(alloc, log, rest, out),
        _ => on_bounds::answer(alloc, word, rest, log, out),
    }
}
