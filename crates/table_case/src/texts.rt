//! What the texts of lines are.

use crate::{number_of, split_word};
use log_read::read_log;
use mt_model::{EventId, Extra, Formula, Log};
use mtl_parse::parse_formula;
use std::alloc::Global;

/// The formula of a text.
pub fn formula_of(alloc: Global, text: &[u8]) -> Option<Formula> {
    if text.len() < 1 << 31 {
        parse_formula(alloc, text).ok()
    } else {
        None
    }
}

/// The log of a text.
pub fn log_of(alloc: Global, text: &[u8]) -> Option<Log> {
    if text.len() < 1 << 31 {
        read_log(alloc, text).ok()
    } else {
        None
    }
}

/// The extra bound of a text: an event, another one, and the most that the first may come after it.
pub fn extra_of(text: &str) -> Option<Extra> {
    let (e, rest) = split_word(text);
    let (f, most) = split_word(rest);
    Some(Extra {
        e: EventId::new(number_of(e)?),
        f: EventId::new(number_of(f)?),
        c: number_of(most)?,
    })
}
