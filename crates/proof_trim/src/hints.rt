//! The lines that hints name.

ghost use Rattle.std.specs.Prelude.{◌↔◌, ◌+◌, ◌<◌, ◌^◌, All, IsTrue, MatchOption, length};
ghost use Rattle.proof_trim.specs.Needed.{IsFirstForward, LooksBack, NamesEarlier, NoneForward};

use proof_log::{Hint, Line};

// Whether a hint of a line, if it names a line, names an earlier one.
fn names_earlier(hint: Hint, number: u32) -> bool
    ensures { IsTrue result ↔ NamesEarlier number hint }
{
    match hint {
        Hint::Line(named) => 0 < named && named < number,
        Hint::Rule(_) => true,
    }
}

// Whether each of some hints of a line does so.
fn name_earlier(hints: &[Hint], number: u32) -> bool
    ensures { IsTrue result ↔ All (NamesEarlier number) hints.now }
{
    hints.iter().all(|hint| names_earlier(*hint, number))
}

// Whether each hint of a line does so.
fn looks_back(line: &Line, number: u32) -> bool
    ensures { IsTrue result ↔ LooksBack number line.now }
{
    match line {
        Line::Cycle(_) => true,
        Line::Learn { hints, .. } => name_earlier(hints.as_slice(), number),
    }
}

/// The first line, counted from 1, with a hint that names a line which does not come before it.
pub fn first_forward(lines: &[Line]) -> Option<u32>
    requires { length lines.now < 2 ^ 32 }
    ensures { MatchOption result (NoneForward lines.now) (IsFirstForward lines.now) }
{
    for (i, line) in lines.iter().enumerate() {
        let number = i as u32 + 1;
        if !looks_back(line, number) {
            return Some(number);
        }
    }
    None
}
