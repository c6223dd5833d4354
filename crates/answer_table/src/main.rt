//! Answers the cases of a table, as the program answers its words where these files are there, and each
//! after the words themselves and the status. The table is the standard input. The first character of a line
//! says what it is, and any other line is left out:
//!
//! - `=`: words, with one space between two, where `''` is the empty word. A case begins.
//! - `?`: words of `check`. Only those lines of the report are told that don't depend on which timings and
//!   which lines were found, and then what `audit` answers for the report and the same words.
//! - `!`: words of `check`, of whose report the section for false is told.
//! - `%`: words of `tolerance` or `span`. Only those lines of the answer are told that don't depend on which timing and
//!   which lines were found.
//! - `&`: such words, of whose answer the times of the witness are told too, where only one timing is right.
//! - `<`: words. Each call on the files fails in turn, first with one byte a call, and then with 65,536. How many
//!   calls there are is told, each of which must be answered as a failed read with nothing written, and the status
//!   where a later call would fail, which must be the answer of sound devices.
//! - `^`: words. Writing fails after each number of bytes: because there is no more room, because a call fails after
//!   calls of one byte, and because one fails after a call of all these bytes. How many bytes there are is told, whose
//!   beginning must be written each time, and the status where there is room for all.
//! - `@`: a seed. The log of the demo is told.
//! - `>`: the name of a file of the case. The lines after it are the file's.
//! - `|`: a line, which a newline ends; `~`: one that a carriage return and a newline end; `/`: a last line
//!   that nothing ends; `*` and `+`: a number, one space and a text without spaces, which is repeated so often,
//!   without an end or with a newline each time.
#![tactic(auto)]

mod outline;

use log_read::write_log;
use mt_port::{MemShelf, MemSink};
use outline::{push_false_section, push_outline, push_timed_outline};
use skew_cli::{Status, demo_log};
use std::alloc::Global;
use std::process::ExitCode;
use table_case::{Table, copied_files, number_of, push_line, push_marked, text_of};

/// The most bytes of an answer.
const LIMIT: usize = 1_048_576;

/// The bytes of one call on sound devices.
const PIECE: usize = 65_536;

// How many bytes go in one call, how many the sink takes in all, and which call on the files and which of the sink
// fails, where 0 is none.
#[derive(Clone, Copy)]
struct Devices {
    piece: usize,
    room: usize,
    bad_read: u64,
    bad_write: u64,
}

const SOUND: Devices = Devices {
    piece: PIECE,
    room: LIMIT,
    bad_read: 0,
    bad_write: 0,
};

// Files, each under its name.
type Files = Vec<(String, Vec<u8>)>;

// What is told of an answer.
#[derive(Clone, Copy)]
enum Telling {
    Whole,
    Outline,
    FalseSection,
    Best,
    BestWitness,
    FailedReads,
    FailedWrites,
}

// The words of a case and its files.
#[derive(Drop)]
struct Case {
    telling: Telling,
    words: Vec<String>,
    files: Files,
}

// The case that the lines belong to, which is answered where it ends.
#[derive(Drop)]
struct Cases {
    last: Option<Case>,
}

fn word(alloc: Global, text: &str) -> Option<String> {
    let text = if text == "''" { "" } else { text };
    String::from_str(alloc, text).ok()
}

// The words of a line.
fn words_of(alloc: Global, line: &str) -> Option<Vec<String>> {
    let mut words = Vec::new(alloc);
    if line.is_empty() {
        return Some(words);
    }
    for text in line.split(' ') {
        words.push(word(alloc, text)?).ok()?;
    }
    Some(words)
}

// Adds words, under which their answer stands.
fn push_words(words: &[String], out: &mut Vec<u8>) -> Option<()> {
    out.push(b'=').ok()?;
    for word in words {
        out.push(b' ').ok()?;
        out.extend_from_slice(word.as_bytes()).ok()?;
    }
    out.push(b'\n').ok()
}

// The status of words over files and devices, and what is written.
fn ran(
    alloc: Global,
    words: &Vec<String>,
    files: Files,
    devices: Devices,
) -> Option<(Status, Vec<u8>)> {
    if devices.piece == 0 || !MemShelf::are_distinct(&files) {
        return None;
    }
    let bad_reads = vec![in alloc; devices.bad_read].ok()?;
    let bad_writes = vec![in alloc; devices.bad_write].ok()?;
    let mut shelf = MemShelf::new(files, devices.piece, bad_reads);
    let mut sink = MemSink::new(alloc, devices.room, devices.piece, bad_writes).ok()?;
    let status = skew_cli::run(alloc, words, &mut shelf, &mut sink);
    Some((status, sink.bytes().to_vec(alloc).ok()?))
}

// Adds the status of words over files, and gives what is written.
fn answer(alloc: Global, words: &Vec<String>, files: Files, out: &mut Vec<u8>) -> Option<Vec<u8>> {
    let (status, text) = ran(alloc, words, files, SOUND)?;
    let line = format!(in alloc; "status {}", status.code()).ok()?;
    push_line(out, line.as_bytes())?;
    Some(text)
}

// Adds how many calls on the files there are, each of which fails in turn, and the status where a later one would.
fn push_failed_reads(
    alloc: Global,
    piece: usize,
    words: &Vec<String>,
    files: &Files,
    out: &mut Vec<u8>,
) -> Option<()> {
    let (sound, whole) = ran(alloc, words, copied_files(alloc, files)?, SOUND)?;
    for calls in 0..LIMIT as u64 {
        let devices = Devices {
            piece,
            bad_read: calls + 1,
            ..SOUND
        };
        let (status, text) = ran(alloc, words, copied_files(alloc, files)?, devices)?;
        if status == sound && text == whole {
            let line = format!(in alloc; "reads {calls} status {}", status.code()).ok()?;
            return push_line(out, line.as_bytes());
        }
        if status != Status::ReadFailed || !text.is_empty() {
            return None;
        }
    }
    None
}

// Whether writing fails after the beginning of a text.
fn is_cut(
    alloc: Global,
    words: &Vec<String>,
    files: &Files,
    devices: Devices,
    beginning: &[u8],
) -> Option<bool> {
    let (status, text) = ran(alloc, words, copied_files(alloc, files)?, devices)?;
    Some(status == Status::WriteFailed && text.as_slice() == beginning)
}

// Whether writing fails after so many bytes of a text, for want of room and by a call that fails after many short
// ones or a long one.
fn is_cut_after(
    alloc: Global,
    words: &Vec<String>,
    files: &Files,
    text: &[u8],
    count: usize,
) -> Option<bool> {
    let full = Devices {
        room: count,
        ..SOUND
    };
    let bytewise = Devices {
        piece: 1,
        bad_write: (count as u64).checked_add(1)?,
        ..SOUND
    };
    let at_once = Devices {
        piece: count.max(1),
        bad_write: if count == 0 { 1 } else { 2 },
        ..SOUND
    };
    let beginning = text.get(..count)?;
    Some(
        is_cut(alloc, words, files, full, beginning)?
            && is_cut(alloc, words, files, bytewise, beginning)?
            && is_cut(alloc, words, files, at_once, beginning)?,
    )
}

// Adds how many bytes are written, after each number of which writing fails in turn, and the status where there is
// room for all.
fn push_failed_writes(
    alloc: Global,
    words: &Vec<String>,
    files: &Files,
    out: &mut Vec<u8>,
) -> Option<()> {
    let (_, text) = ran(alloc, words, copied_files(alloc, files)?, SOUND)?;
    for count in 0..text.len() {
        if !is_cut_after(alloc, words, files, &text, count)? {
            return None;
        }
    }
    let room = text.len();
    let (status, _) = ran(
        alloc,
        words,
        copied_files(alloc, files)?,
        Devices { room, ..SOUND },
    )?;
    let line = format!(in alloc; "writes {room} status {}", status.code()).ok()?;
    push_line(out, line.as_bytes())
}

// The text of the log of a seed.
fn demo_text(alloc: Global, seed: u64) -> Option<Vec<u8>> {
    let log = demo_log(alloc, seed).ok()?;
    if log.plain() {
        write_log(alloc, &log).ok()
    } else {
        None
    }
}

// Adds the log of a seed.
fn push_demo_log(alloc: Global, seed: &[u8], out: &mut Vec<u8>) -> Option<()> {
    let text = demo_text(alloc, number_of(text_of(seed)?)?)?;
    out.push(b'@').ok()?;
    push_marked(out, b' ', seed)?;
    out.extend_from_slice(&text).ok()
}

// The words of `audit` for those of `check`.
fn audit_words(alloc: Global, words: &[String]) -> Option<Vec<String>> {
    let (_, rest) = words.split_first()?;
    let mut audit = Vec::new(alloc);
    audit.push(String::from_str(alloc, "audit").ok()?).ok()?;
    for word in rest {
        audit
            .push(String::from_str(alloc, word.as_str()).ok()?)
            .ok()?;
    }
    audit.push(String::from_str(alloc, "report").ok()?).ok()?;
    Some(audit)
}

// Adds what is told of a report, and what `audit` answers for it.
fn push_audited(alloc: Global, words: &Vec<String>, files: Files, out: &mut Vec<u8>) -> Option<()> {
    let mut audited = copied_files(alloc, &files)?;
    let report = answer(alloc, words, files, out)?;
    push_outline(&report, out)?;
    audited
        .push((String::from_str(alloc, "report").ok()?, report))
        .ok()?;
    let audit = audit_words(alloc, words)?;
    push_words(&audit, out)?;
    let text = answer(alloc, &audit, audited, out)?;
    out.extend_from_slice(&text).ok()
}

// Adds the answer of a case.
fn push_answer(alloc: Global, case: Case, out: &mut Vec<u8>) -> Option<()> {
    let Case {
        telling,
        words,
        files,
    } = case;
    match telling {
        Telling::Whole => {
            let text = answer(alloc, &words, files, out)?;
            out.extend_from_slice(&text).ok()
        }
        Telling::Outline => push_audited(alloc, &words, files, out),
        Telling::FalseSection => {
            let report = answer(alloc, &words, files, out)?;
            push_false_section(&report, out)
        }
        Telling::Best => {
            let text = answer(alloc, &words, files, out)?;
            push_outline(&text, out)
        }
        Telling::BestWitness => {
            let text = answer(alloc, &words, files, out)?;
            push_timed_outline(&text, out)
        }
        Telling::FailedReads => {
            push_failed_reads(alloc, 1, &words, &files, out)?;
            push_failed_reads(alloc, PIECE, &words, &files, out)
        }
        Telling::FailedWrites => push_failed_writes(alloc, &words, &files, out),
    }
}

// What is told of the answer of a case that begins with a mark.
fn told_after(mark: u8) -> Option<Telling> {
    match mark {
        b'=' => Some(Telling::Whole),
        b'?' => Some(Telling::Outline),
        b'!' => Some(Telling::FalseSection),
        b'%' => Some(Telling::Best),
        b'&' => Some(Telling::BestWitness),
        b'<' => Some(Telling::FailedReads),
        b'^' => Some(Telling::FailedWrites),
        _ => None,
    }
}

// Begins a case, whose words head its answer.
fn begin(alloc: Global, telling: Telling, line: &[u8], out: &mut Vec<u8>) -> Option<Case> {
    out.push(b'=').ok()?;
    push_marked(out, b' ', line)?;
    Some(Case {
        telling,
        words: words_of(alloc, text_of(line)?)?,
        files: Vec::new(alloc),
    })
}

impl Case {
    // Adds a file without bytes.
    fn push_file(&mut self, alloc: Global, name: &[u8]) -> Option<()> {
        let name = String::from_str(alloc, text_of(name)?).ok()?;
        self.files.push((name, Vec::new(alloc))).ok()
    }

    // Adds a line to the last file.
    fn push_text(&mut self, text: &[u8], end: &[u8]) -> Option<()> {
        let (_, bytes) = self.files.last_mut()?;
        bytes.extend_from_slice(text).ok()?;
        bytes.extend_from_slice(end).ok()
    }

    // Adds a text to the last file, so many times.
    fn push_repeated(&mut self, repeated: &[u8], end: &[u8]) -> Option<()> {
        let mut parts = repeated.split(|byte| *byte == b' ');
        let count: usize = number_of(text_of(parts.next()?)?)?;
        let text = parts.next()?;
        for _ in 0..count {
            self.push_text(text, end)?;
        }
        Some(())
    }

    // Adds what a line says, if it says something.
    fn push(&mut self, alloc: Global, mark: u8, text: &[u8]) -> Option<()> {
        match mark {
            b'>' => self.push_file(alloc, text),
            b'|' => self.push_text(text, b"\n"),
            b'~' => self.push_text(text, b"\r\n"),
            b'/' => self.push_text(text, b""),
            b'*' => self.push_repeated(text, b""),
            b'+' => self.push_repeated(text, b"\n"),
            _ => Some(()),
        }
    }
}

impl Cases {
    // Adds the answer of the last case, if there is one that isn't answered yet.
    fn push_last(&mut self, alloc: Global, out: &mut Vec<u8>) -> Option<()> {
        match self.last.take() {
            Some(case) => push_answer(alloc, case, out),
            None => Some(()),
        }
    }

    // Takes in a line of the last case, if there is one.
    fn push(&mut self, alloc: Global, mark: u8, text: &[u8]) -> Option<()> {
        match &mut self.last {
            Some(case) => case.push(alloc, mark, text),
            None => Some(()),
        }
    }
}

impl Table for Cases {
    fn take(&mut self, alloc: Global, mark: u8, text: &[u8], out: &mut Vec<u8>) -> Option<()> {
        if let Some(telling) = told_after(mark) {
            self.push_last(alloc, out)?;
            self.last = Some(begin(alloc, telling, text, out)?);
            Some(())
        } else if mark == b'@' {
            self.push_last(alloc, out)?;
            push_demo_log(alloc, text, out)
        } else {
            self.push(alloc, mark, text)
        }
    }

    fn end(&mut self, alloc: Global, out: &mut Vec<u8>) -> Option<()> {
        self.push_last(alloc, out)
    }
}

fn main(rt: HostRuntime) -> ExitCode {
    let mut cases = Cases { last: None };
    table_case::run(&rt, &mut cases)
}
