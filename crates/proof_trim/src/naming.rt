//! The lines that the words of a line name: each is a number after the word `line`.

ghost use Rattle.std.specs.Prelude.{◌≡◌, MatchOption};
ghost use Rattle.proof_trim.specs.Naming.{IsNextNamed, IsNoneNamed, is_line_word as is_line_word_of, number_of as number_of_word};

use decimal::number;
use proof_log::next_word;

/// A line that words name.
#[derive(Clone, Copy)]
pub struct NextNamed<'a> {
    /// The words before its number.
    pub before: &'a [u8],
    pub line: u32,
    /// The words after its number.
    pub after: &'a [u8],
}

fn number_of(word: &[u8]) -> u32
    ensures { result ≡ number_of_word word.now }
{
    match number(word, 1 << 32) {
        Some(number) => number as u32,
        None => 0,
    }
}

fn is_line_word(word: &[u8]) -> bool
    ensures { result ≡ is_line_word_of word.now }
{
    match word {
        [b'l', b'i', b'n', b'e'] => true,
        _ => false,
    }
}

/// The first line that the words of a line name.
pub fn next_named(words: &[u8]) -> Option<NextNamed>
    ensures { MatchOption result (IsNoneNamed words.now) (λ r. IsNextNamed words.now r.before.now r.line r.after.now) }
{
    let mut rest = words;
    while let Some((word, after)) = next_word(rest) {
        rest = after;
        if is_line_word(word) {
            let Some((number, after)) = next_word(rest) else {
                return None;
            };
            let before = &words[..words.len() - rest.len()];
            let line = number_of(number);
            return Some(NextNamed {
                before,
                line,
                after,
            });
        }
    }
    None
}
