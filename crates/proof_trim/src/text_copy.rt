//! The text of the lines that are marked, from that of all lines.

ghost use Rattle.std.specs.Prelude.{◌≡◌, ◌+◌, ◌-◌, ◌++◌, ◌∷◌, ◌<◌, ◌^◌, [], List, All, length, false, IfOk, OnOk, slice_index, if◌then◌else◌};
ghost use Rattle.std.specs.Fmt.{decimal};
ghost use Rattle.std.specs.List.{join_with_byte};
ghost use Rattle.proof_log.specs.declared.line.Line.{Line};
ghost use Rattle.proof_log.specs.LinesOf.{IsTextOf};
ghost use Rattle.proof_log.specs.LinesText.{line_text, line_words, lines_text, space, spaced};
ghost use Rattle.proof_log.specs.Parts.{AreWordsOf, OfLine, bytes_of};
ghost use Rattle.proof_log.specs.Reading.{words_after};
ghost use Rattle.proof_log.specs.Spelled.{IsSpelled};
ghost use Rattle.proof_trim.specs.Naming.{IsEarlier, named_in, renamed_in};
ghost use Rattle.proof_trim.specs.Needed.{LooksBack, NoneForward};
ghost use Rattle.proof_trim.specs.Placed.{OfMarked, left_of, with_marked};
ghost use Rattle.proof_trim.specs.Trimmed.{moved};

use crate::naming::next_named;
use itoa::Buffer;
use proof_log::{LineWords, next_words};
use std::alloc::{AllocError, Global};

// Adds a number after a space.
fn push_number(left: &mut Vec<u8>, number: u32) -> Result<(), AllocError>
    ensures { OnOk result (left.new.items ≡ left.old.items ++ spaced (decimal number ∷ [])) }
{
    let mut digits = Buffer::new();
    left.push(b' ')?;
    left.extend_from_slice(digits.format(number).as_bytes())
}

// Adds words of a line, with the new numbers of the lines that they name. `places` has these for lines 1, 2 and so on.
fn push_renamed(left: &mut Vec<u8>, words: &[u8], places: &[u32]) -> Result<(), AllocError>
    requires earlier { All (IsEarlier (length places.now + 1)) (named_in false (words_after words.now)) }
    requires spaced { words.now ≡ spaced (words_after words.now) }
    ensures { OnOk result (left.new.items ≡ left.old.items ++ spaced (renamed_in (λ n. slice_index places.now (n - 1)) false (words_after words.now))) }
{
    let mut rest = words;
    while let Some(next) = next_named(rest) {
        left.extend_from_slice(next.before)?;
        push_number(left, places[next.line as usize - 1])?;
        rest = next.after;
    }
    left.extend_from_slice(rest)
}

// Adds the words of a line, with new numbers.
fn push_words(left: &mut Vec<u8>, words: LineWords, places: &[u32]) -> Result<(), AllocError>
    requires line { (l : Line) × IsSpelled l × AreWordsOf words l × LooksBack (length places.now + 1) l }
    requires spaced { bytes_of words ≡ spaced (words_after (bytes_of words)) }
    ensures { OnOk result (OfLine words.entry (λ l. left.new.items ≡ left.old.items ++ join_with_byte space (line_words (moved places.now l)))) }
{
    match words {
        LineWords::Cycle(words) => {
            left.extend_from_slice(b"cycle")?;
            left.extend_from_slice(words)
        }
        LineWords::Learn(words) => {
            left.extend_from_slice(b"learn")?;
            push_renamed(left, words, places)
        }
    }
}

// Adds a line.
fn push_line(left: &mut Vec<u8>, words: LineWords, places: &[u32]) -> Result<(), AllocError>
    requires line { (l : Line) × IsSpelled l × AreWordsOf words l × LooksBack (length places.now + 1) l }
    requires spaced { bytes_of words ≡ spaced (words_after (bytes_of words)) }
    ensures { OnOk result (OfLine words.entry (λ l. left.new.items ≡ left.old.items ++ line_text (moved places.now l))) }
{
    push_words(left, words, places)?;
    left.push(b'\n')?;
    Ok(())
}

// Adds it if it is marked.
fn push_marked(
    left: &mut Vec<u8>,
    mark: bool,
    words: LineWords,
    places: &[u32],
) -> Result<(), AllocError>
    requires line { (l : Line) × IsSpelled l × AreWordsOf words l × LooksBack (length places.now + 1) l }
    requires spaced { bytes_of words ≡ spaced (words_after (bytes_of words)) }
    ensures { OnOk result (OfLine words.entry (λ l. left.new.items ≡ with_marked mark places.now left.old.items l)) }
{
    if mark {
        push_line(left, words, places)
    } else {
        Ok(())
    }
}

// How many lines are left with one more.
fn count_with(count: u32, mark: bool) -> u32
    requires { count < 2 ^ 31 }
    ensures { result ≡ (if mark then count + 1 else count) }
{
    if mark { count + 1 } else { count }
}

/// The text of the lines that are marked, where a hint that names a line has the place of that line among these, and how
/// many these are. Room for the text of all lines is taken at once.
pub fn marked_text(alloc: Global, text: &[u8], marks: &[bool]) -> Result<(Vec<u8>, u32), AllocError>
    requires few { length marks.now < 2 ^ 31 }
    requires lines { (lines : List Line) × IsTextOf text.now lines × (length marks.now ≡ length lines) × NoneForward lines }
    ensures left { IfOk result (λ r. OfMarked text.now marks.now (λ lines. r.0.items ≡ lines_text (left_of marks.now lines))) }
    ensures full { IfOk result (λ r. OfMarked text.now marks.now (λ lines. r.1 ≡ length (left_of marks.now lines))) }
{
    let mut left = Vec::with_capacity(alloc, text.len())?;
    let mut places = Vec::with_capacity(alloc, marks.len())?;
    let mut count = 0;
    let mut rest = text;
    while let Some((words, after)) = next_words(rest) {
        let mark = marks[places.len()];
        push_marked(&mut left, mark, words, &places)?;
        count = count_with(count, mark);
        places.push(count)?;
        rest = after;
    }
    Ok((left, count))
}
