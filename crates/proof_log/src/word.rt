//! The words of a line.

ghost use Rattle.std.specs.Prelude.{◌≡◌, ◌<◌, ◌≤◌, ◌∷◌, ◌++◌, [], length, IfSome, MatchOption};
ghost use Rattle.std.specs.List.{slice_split};
ghost use Rattle.memchr.specs.Find.{Nowhere, Passes, is_byte};
ghost use Rattle.proof_log.specs.LinesText.{space, spaced};
ghost use Rattle.proof_log.specs.Reading.{words_after};

// Where the first space is, or else the end. Words are short: a plain loop is faster here than a search by groups of bytes.
fn word_end(words: &[u8]) -> usize
    ensures within { result ≤ length words.now }
    ensures none { Nowhere (Passes (is_byte space) words.now) 0 result }
    ensures here { result < length words.now → Passes (is_byte space) words.now result }
{
    let mut end = 0;
    while end < words.len() && words[end] != b' ' {
        end += 1;
    }
    end
}

/// The first word, and what is left from the space after it on.
pub fn cut_word(words: &[u8]) -> (&[u8], &[u8])
    ensures words { slice_split (is_byte space) words.now ≡ result.0.now ∷ words_after result.1.now }
    ensures bytes { words.now ≡ result.0.now ++ result.1.now }
{
    let end = word_end(words);
    (&words[..end], &words[end..])
}

/// The word after a space, and what is left from the next space on. None where nothing is left. The first byte is passed
/// over as the space.
pub fn next_word(words: &[u8]) -> Option<(&[u8], &[u8])>
    ensures word { MatchOption result (words_after words.now ≡ []) (λ r. words_after words.now ≡ r.0.now ∷ words_after r.1.now) }
    ensures shorter { IfSome result (λ r. length r.1.now < length words.now) }
    ensures bytes { words.now ≡ spaced (words_after words.now) → IfSome result (λ r. r.1.now ≡ spaced (words_after r.1.now)) }
{
    match words {
        [] => None,
        [_, rest @ ..] => Some(cut_word(rest)),
    }
}
