//! What the words of a command say, before the command's file names and numbers are taken from them.

ghost use Rattle.std.specs.Prelude.{◌≡◌, ℕ, IfSome, IsSome, IsTrue, is_some, map, option_and_then, string_bytes};
ghost use Rattle.skew_words.specs.Called.{words_in};
ghost use Rattle.skew_words.specs.NormalWords.{command_said, verb_of};
ghost use Rattle.skew_words.specs.Table.{are_operands, row_of};
ghost use Rattle.skew_words.specs.Words.{command_after, command_from, command_of, command_with};

use crate::given::Given;
use crate::numbers::two_events;
use crate::operands::Operands;
use crate::table::{Operand, Verb};

/// A command as its words say it: its operands, and the number of conflicts where the option gives it.
#[derive(Clone, Copy)]
pub struct Spoken<'a> {
    pub(crate) verb: Verb,
    pub(crate) conflicts: Option<&'a str>,
    pub(crate) operands: Operands<'a>,
}

impl Spoken<'_> {
    /// Its first word.
    pub fn verb(&self) -> Verb
        ensures { result ≡ verb_of self.now }
    {
        self.verb
    }
}

// Whether words are these operands.
fn fit(operands: &[Operand], words: &Operands<'_>) -> bool
    ensures { result ≡ are_operands operands.now (words_in words.now) }
{
    if words.count() != operands.len() {
        return false;
    }
    for (place, operand) in operands.iter().enumerate() {
        if !operand.admits(words.word(place)) {
            return false;
        }
    }
    true
}

// Whether the two events of `span` differ; no other command has any.
fn events_differ(verb: Verb, words: &Operands<'_>) -> bool
    requires { IsTrue (are_operands (row_of verb).operands (words_in words.now)) }
    ensures { (n : ℕ) → result ≡ is_some (command_from verb n (words_in words.now)) }
{
    match verb {
        Verb::Span => two_events(words.word(1), words.word(2)).is_some(),
        _ => true,
    }
}

// Whether words are the operands of a command of this first word.
fn make_command(verb: Verb, words: &Operands<'_>) -> bool
    ensures { (n : ℕ) → result ≡ is_some (command_with verb n (words_in words.now)) }
{
    fit(verb.row().operands, words) && events_differ(verb, words)
}

// What a first word says with the words after it.
fn spoken_after<'a>(verb: Verb, words: &'a [String]) -> Option<Spoken<'a>>
    ensures command { option_and_then command_said result ≡ command_after verb (map string_bytes words.now) }
    ensures said { IfSome result (λ s. IsSome (command_said s)) }
{
    let given = Given::to(verb, words)?;
    if !make_command(verb, &given.operands) {
        return None;
    }
    Some(Spoken {
        verb,
        conflicts: given.conflicts,
        operands: given.operands,
    })
}

/// What the words say, and None exactly where they are no command.
pub fn spoken_of(words: &[String]) -> Option<Spoken<'_>>
    ensures command { option_and_then command_said result ≡ command_of (map string_bytes words.now) }
    ensures said { IfSome result (λ s. IsSome (command_said s)) }
{
    match words {
        [] => Some(Spoken {
            verb: Verb::Times,
            conflicts: None,
            operands: Operands::Input,
        }),
        [first, rest @ ..] => spoken_after(Verb::named(first.as_str())?, rest),
    }
}
