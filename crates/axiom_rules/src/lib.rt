//! The rules that derivations cite: which clauses there are, and that each holds in every timing that a log admits, or, of
//! the rule on the value sought, in each of them that gives this value.
#![tactic(auto)]

mod atom_index;
mod atom_table;
mod clause;
mod fault;
mod laws;
mod literal;
mod needless;
mod part;
mod proposition;
mod reach;
mod rule;
mod rules;
mod shape;

pub use atom_table::AtomTable;
pub use fault::RuleFault;
pub use laws::{clauses_have_atoms_once, rules_are_within_table, rules_hold};
pub use literal::{Atom, Literal, order_literal};
pub use needless::{Needless, OfReach};
pub use proposition::{ChangeList, ChangeRow, PropositionRows, PulseList};
pub use reach::Reach;
pub use rule::{
    Argument, CHANGE_LASTS, CONJUNCTION_COVERS, CONJUNCTION_HAS_LEFT, CONJUNCTION_HAS_RIGHT,
    CONSTANT_IS_TRUE, EARLIEST_IS_FIRST, FIRST_HAS_VALUE, FIRST_IS_NOT_AFTER, FREE_WITNESS_COVERS,
    GAP_IS_AHEAD, GAP_LACKS_LEFT, INSTANT_COVERS, INSTANT_IS_NOT_AFTER, MAX_RULE, NEGATION_COVERS,
    NEGATION_EXCLUDES, PULSE_GIVES_TRUTH, Rule, RuleList, SOME_IS_FIRST, SPAN_HAS_LEFT,
    SPAN_OR_GAP, SPAN_UP_TO_GAP, Subject, TRUTH_HAS_CAUSE, TRUTH_HAS_WITNESS, WITNESS_COVERS,
    WITNESS_GIVES_TRUTH, WITNESS_HAS_RIGHT, WITNESS_HAS_SPAN, WITNESS_IS_FROM, WITNESS_IS_UP_TO,
    argument_count, arguments_of, needless_of, subject_of,
};
pub use rules::Rules;
