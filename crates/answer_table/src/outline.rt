//! What an answer says whichever timings and lines were found.

use table_case::{push_line, push_marked};

/// The first words of lines of which two words are told.
const SECTIONS: [&[u8]; 4] = [b"true", b"false", b"below", b"beyond"];

/// The first words of lines that are told whole.
const WHOLE_LINES: [&[u8]; 6] = [
    b"skewcheck",
    b"events",
    b"inconsistent",
    b"tolerance",
    b"span",
    b"end",
];

// Adds what a line says of any answer to the same question.
fn push_outlined(line: &[u8], out: &mut Vec<u8>) -> Option<()> {
    let mut words = line.split(|byte| *byte == b' ');
    let first = words.next()?;
    if SECTIONS.contains(&first) {
        out.extend_from_slice(first).ok()?;
        push_marked(out, b' ', words.next()?)?;
    } else if WHOLE_LINES.contains(&first) {
        push_line(out, line)?;
    }
    Some(())
}

/// Adds what its lines say of any answer to the same question.
pub fn push_outline(text: &[u8], out: &mut Vec<u8>) -> Option<()> {
    for line in text.split(|byte| *byte == b'\n') {
        push_outlined(line, out)?;
    }
    Some(())
}

/// Adds the same with the times of a witness.
pub fn push_timed_outline(text: &[u8], out: &mut Vec<u8>) -> Option<()> {
    for line in text.split(|byte| *byte == b'\n') {
        match line {
            [b'0'..=b'9' | b'-', ..] => push_line(out, line)?,
            _ => push_outlined(line, out)?,
        }
    }
    Some(())
}

/// Adds the section for false of a report, and its end.
pub fn push_false_section(report: &[u8], out: &mut Vec<u8>) -> Option<()> {
    let mut told = false;
    for line in report.split(|byte| *byte == b'\n') {
        told = told || line.starts_with(b"false ");
        if told && !line.is_empty() {
            push_line(out, line)?;
        }
    }
    Some(())
}
