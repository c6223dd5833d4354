//! The words of a text that is known to be that of lines, handed out one item after another. Nothing here takes memory.

ghost use Rattle.std.specs.Prelude.{◌≡◌, ◌∷◌, [], ℕ, List, MatchOption};
ghost use Rattle.std.specs.Fmt.{decimal};
ghost use Rattle.proof_log.specs.declared.line.Line.{Line};
ghost use Rattle.proof_log.specs.LinesOf.{IsTextOf};
ghost use Rattle.proof_log.specs.LinesText.{Word, hint_words, literal_words, step_words};
ghost use Rattle.proof_log.specs.Parts.{HasRead, IsHeadWords, Reads};
ghost use Rattle.proof_log.specs.Reading.{words_after};
ghost use Rattle.proof_log.specs.Spelled.{IsNumber, IsSpelledHint, IsSpelledLiteral, IsSpelledStep};

use crate::item::{next_hint, next_literal, next_number, next_step};
use crate::line::Hint;
use crate::word::cut_word;
use axiom_rules::Literal;
use memchr::memchr;
use mt_model::Step;

/// What stands in the text of a line after `cycle` or `learn`: from the space before the number of its steps or literals on,
/// up to its newline.
#[derive(Clone, Copy)]
pub enum LineWords<'a> {
    Cycle(&'a [u8]),
    Learn(&'a [u8]),
}

/// The words of the first line of a text of lines, and the text of the others. None where there is no line.
pub fn next_words(bytes: &[u8]) -> Option<(LineWords, &[u8])>
    ensures head { (lines : List Line) → IsTextOf bytes.now lines → MatchOption result (lines ≡ []) (λ r. IsHeadWords lines r.0 r.1.now) }
{
    let Some(end) = memchr(b'\n', bytes) else {
        return None;
    };
    let (word, after) = cut_word(&bytes[..end]);
    let rest = &bytes[end + 1..];
    if word == b"cycle".as_slice() {
        Some((LineWords::Cycle(after), rest))
    } else {
        Some((LineWords::Learn(after), rest))
    }
}

/// The number with which the words of a line go on, and the words after it; 0 and all the words where they go on with none.
pub fn read_count(words: &[u8]) -> (u32, &[u8])
    ensures number { (n : ℕ) (after : List Word) → IsNumber n → words_after words.now ≡ decimal n ∷ after → HasRead n after result }
{
    match next_number(words) {
        Some(read) => read,
        None => (0, words),
    }
}

/// The step with which the words of a line go on, and the words after it. None where they go on with no step.
pub fn read_step(words: &[u8]) -> Option<(Step, &[u8])>
    ensures step { Reads IsSpelledStep step_words words.now result }
{
    next_step(words)
}

/// The literal with which the words of a line go on, and the words after it. None where they go on with no literal.
pub fn read_literal(words: &[u8]) -> Option<(Literal, &[u8])>
    ensures literal { Reads IsSpelledLiteral literal_words words.now result }
{
    next_literal(words)
}

/// The hint with which the words of a line go on, and the words after it. None where they go on with no hint.
pub fn read_hint(words: &[u8]) -> Option<(Hint, &[u8])>
    ensures hint { Reads IsSpelledHint hint_words words.now result }
{
    next_hint(words)
}
