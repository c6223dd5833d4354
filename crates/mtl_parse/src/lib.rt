//! The text of formulas: the formula that bytes are, the one text of a formula, and where the hosts of
//! its propositions stand.
#![tactic(auto)]

mod fault;
mod formula_text;
mod laws;
mod operand;
mod parser;
mod pending;
mod place;
mod printer;
mod token;
mod tokens;

pub use fault::FormulaFault;
pub use formula_text::parse_formula;
pub use laws::{
    hosts_stand_before_dots, no_text_lacks_memory, other_texts_have_faults,
    texts_are_blanks_and_tokens, texts_are_unambiguous, texts_have_readings,
    tokens_are_unambiguous,
};
pub use place::place_of;
pub use printer::{print_formula, printed_formulas_read_back};
