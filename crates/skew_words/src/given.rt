//! The words after the first word of a command.

ghost use Rattle.std.specs.Prelude.{◌≡◌, IfSome, IsSome, MatchOption, None, Some, codes, map, option_map, string_bytes};
ghost use Rattle.skew_words.specs.Called.{GivesAround, GivesNumber, GivesPlain, given_around, given_in, option_in, value_by};
ghost use Rattle.skew_words.specs.NormalWords.{conflicts_said};
ghost use Rattle.skew_words.specs.Table.{row_of};
ghost use Rattle.skew_words.specs.Words.{after, conflicts_in, conflicts_of, given_of, given_to, operands_of, plain};

use crate::numbers::conflicts;
use crate::operands::{Operands, is_dashed, is_mark};
use crate::table::Verb;

/// The operands of a command, and the number of conflicts as the option writes it, where it is given.
#[derive(Clone, Copy)]
pub struct Given<'a> {
    pub operands: Operands<'a>,
    pub conflicts: Option<&'a str>,
}

// What follows `--conflicts=` at the front of a word.
fn attached(word: &String) -> Option<&str>
    ensures { option_map (λ text. text.now) result ≡ after (codes "--conflicts=") (string_bytes word.now) }
{
    word.as_str().strip_prefix("--conflicts=")
}

// The word in which an option writes its number, and the words after it that are left.
fn value<'a>(option: &'a String, words: &'a [String]) -> Option<(&'a str, &'a [String])>
    ensures { let given = value_by option.now words.now in
        MatchOption result (given ≡ None) (λ r. GivesNumber given r.0.now r.1.now) }
{
    if option.as_str() == "--conflicts" {
        let (next, rest) = words.split_first()?;
        conflicts(next.as_str())?;
        Some((next.as_str(), rest))
    } else {
        let text = attached(option)?;
        conflicts(text)?;
        Some((text, words))
    }
}

// The words before the first option, the option, and the words after it, if one stands before the first `--`.
fn split_at_option<'a>(words: &'a [String]) -> Option<(&'a [String], &'a String, &'a [String])>
    ensures { MatchOption result (GivesPlain words.now) (λ r. GivesAround words.now r.0.now r.1.now r.2.now) }
{
    for (i, word) in words.iter().enumerate() {
        if is_mark(word) {
            return None;
        }
        if is_dashed(word) {
            return Some((&words[..i], word, &words[i + 1..]));
        }
    }
    None
}

impl<'a> Given<'a> {
    // What an option gives with the words before it and those after it.
    fn around(front: &'a [String], option: &'a String, words: &'a [String]) -> Option<Given<'a>>
        ensures given { option_map given_in result ≡ given_around front.now option.now words.now }
        ensures number { IfSome result (λ g. IfSome g.conflicts (λ text. IsSome (conflicts_of text.now))) }
    {
        let (text, rest) = value(option, words)?;
        let operands = Operands::among(front, rest)?;
        Some(Given {
            operands,
            conflicts: Some(text),
        })
    }

    // What the words give to a command that takes the option.
    fn among(words: &'a [String]) -> Option<Given<'a>>
        ensures given { option_map given_in result ≡ given_of (map string_bytes words.now) }
        ensures number { IfSome result (λ g. IfSome g.conflicts (λ text. IsSome (conflicts_of text.now))) }
    {
        match split_at_option(words) {
            Some((front, option, rest)) => Given::around(front, option, rest),
            None => Given::plain(words),
        }
    }

    // What they give to a command that takes none.
    fn plain(words: &'a [String]) -> Option<Given<'a>>
        ensures given { option_map given_in result ≡ option_map plain (operands_of (map string_bytes words.now)) }
        ensures none { IfSome result (λ g. g.conflicts ≡ None) }
    {
        let operands = Operands::among(&[], words)?;
        Some(Given {
            operands,
            conflicts: None,
        })
    }

    /// What the words after a first word give, and None exactly where they give nothing.
    pub fn to(verb: Verb, words: &'a [String]) -> Option<Given<'a>>
        ensures given { option_map given_in result ≡ given_to verb (map string_bytes words.now) }
        ensures number { IfSome result (λ g. conflicts_said (row_of verb).takes_conflicts (option_in g) ≡ Some (conflicts_in (given_in g))) }
    {
        if verb.row().takes_conflicts {
            Given::among(words)
        } else {
            Given::plain(words)
        }
    }
}
