//! Derivations: lines that each have a clause, their text both ways, and what makes a line right.
#![tactic(auto)]

mod atoms;
mod fault;
mod item;
mod laws;
mod line;
mod parts;
mod passing;
mod printer;
mod reader;
mod spelling;
mod word;

pub use fault::LineFault;
pub use laws::{
    bytes_are_unambiguous, fresh_lines_differ, refuted_by_rules_is_not_spent, spent_is_bounded,
    steps_read_alike, texts_read_back, texts_tell_apart,
};
pub use line::{Hint, Hints, Line, Lines, Lits};
pub use parts::{LineWords, next_words, read_count, read_hint, read_literal, read_step};
pub use passing::pass_line;
pub use printer::{print_lines, push_line};
pub use reader::read_lines;
pub use spelling::{has_spelling, is_number};
pub use word::next_word;
