//! How lines are taken apart and written.

ghost use Rattle.std.specs.Prelude.{◌≡◌, ◌++◌, ◌∷◌, [], IfSome};

use std::alloc::Global;
use std::fmt::Display;
use std::str::FromStr;

/// Adds a line.
pub fn push_line(out: &mut Vec<u8>, text: &[u8]) -> Option<()>
    ensures added { IfSome result (λ _. out.new.items ≡ out.old.items ++ text.now ++ 10 ∷ []) }
{
    out.extend_from_slice(text).ok()?;
    out.push(b'\n').ok()
}

/// Adds a line with its mark.
pub fn push_marked(out: &mut Vec<u8>, mark: u8, text: &[u8]) -> Option<()>
    ensures added { IfSome result (λ _. out.new.items ≡ out.old.items ++ mark ∷ text.now ++ 10 ∷ []) }
{
    out.push(mark).ok()?;
    push_line(out, text)
}

/// Adds what is printed of a value, as a line.
pub fn push_shown(alloc: Global, out: &mut Vec<u8>, value: impl Display + Drop) -> Option<()> {
    let text = format!(in alloc; "{value}").ok()?;
    push_line(out, text.as_bytes())
}

/// The text that bytes are.
pub fn text_of(bytes: &[u8]) -> Option<&str> {
    str::from_utf8(bytes).ok()
}

/// The first word, and what stands after the space behind it.
pub fn split_word(text: &str) -> (&str, &str) {
    match text.split_once(' ') {
        Some((word, rest)) => (word, rest),
        None => (text, ""),
    }
}

/// The number of a word, in the range of its type.
pub fn number_of<T: FromStr>(word: &str) -> Option<T>
where
    T::Err: Drop,
{
    word.parse().ok()
}
