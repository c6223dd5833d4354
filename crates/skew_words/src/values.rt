//! The truth values that words write.

ghost use Rattle.std.specs.Prelude.{◌≡◌};
ghost use Rattle.skew_words.specs.Table.{value_of};

/// The truth value that a word writes.
pub fn truth_value(word: &str) -> Option<bool>
    ensures value { result ≡ value_of word.now }
{
    if word == "true" {
        Some(true)
    } else if word == "false" {
        Some(false)
    } else {
        None
    }
}
