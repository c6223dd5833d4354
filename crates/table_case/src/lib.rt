//! What programs that answer a table have in common: the lines, the texts in them, and the case that questions are on.
#![tactic(auto)]

mod case;
mod files;
mod lines;
mod program;
mod texts;
mod words;

pub use case::{Case, Parsed};
pub use files::copied_files;
pub use lines::{Table, answers};
pub use program::run;
pub use texts::{extra_of, formula_of, log_of};
pub use words::{number_of, push_line, push_marked, push_shown, split_word, text_of};
