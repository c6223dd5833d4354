//! How texts are read from a line and told.

use mt_model::Name;
use percent_encoding::percent_decode;
use std::alloc::Global;
use std::fmt::Display;
use table_case::{number_of, push_shown, text_of};

/// Adds a line of an answer.
pub fn tell(alloc: Global, out: &mut Vec<u8>, answer: impl Display + Drop) -> Option<()> {
    push_shown(alloc, out, format_args!("  {answer}"))
}

/// Adds a line that says whether something holds.
pub fn tell_whether(alloc: Global, out: &mut Vec<u8>, holds: bool) -> Option<()> {
    tell(alloc, out, if holds { "yes" } else { "no" })
}

/// Adds a part to a line, with `; ` between two.
pub fn push_part(line: &mut String, part: impl Display + Drop) -> Option<()> {
    if !line.is_empty() {
        line.push_str("; ").ok()?;
    }
    write!(line, "{part}").ok()
}

/// Adds a word to a line, with a space between two.
pub fn push_word(line: &mut String, word: impl Display + Drop) -> Option<()> {
    if !line.is_empty() {
        line.push_str(" ").ok()?;
    }
    write!(line, "{word}").ok()
}

/// Adds a line with times.
pub fn tell_times(alloc: Global, times: &[i128], out: &mut Vec<u8>) -> Option<()> {
    let mut line = String::new(alloc);
    for time in times {
        push_part(&mut line, *time)?;
    }
    tell(alloc, out, format_args!("times: {line}"))
}

/// The text of a name.
pub fn name_text(name: &Name) -> Option<&str> {
    text_of(name.bytes())
}

/// The name of these bytes, if they are a name.
pub fn name_of(alloc: Global, bytes: &[u8]) -> Option<Name> {
    Name::new(alloc, bytes).ok()?
}

/// Adds the bytes of a text, where `%` with two hexadecimal digits is the byte of that number.
pub fn push_decoded(text: &str, out: &mut Vec<u8>) -> Option<()> {
    percent_decode(text.as_bytes()).append_to(out).ok()
}

/// The bytes of a text, where `%` with two hexadecimal digits is the byte of that number.
pub fn decoded(alloc: Global, text: &str) -> Option<Vec<u8>> {
    let mut bytes = Vec::new(alloc);
    push_decoded(text, &mut bytes)?;
    Some(bytes)
}

/// Adds a text, with a number where it has `#`.
pub fn push_numbered(text: &str, number: u32, out: &mut String) -> Option<()> {
    for letter in text.chars() {
        if letter == '#' {
            write!(out, "{number}").ok()?;
        } else {
            out.push(letter).ok()?;
        }
    }
    Some(())
}

/// The integers of a text, with a space between two.
pub fn integers(alloc: Global, text: &str) -> Option<Vec<i128>> {
    let mut integers = Vec::new(alloc);
    for word in text.split(' ') {
        integers.push(number_of(word)?).ok()?;
    }
    Some(integers)
}
