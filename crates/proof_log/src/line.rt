//! The lines of derivations.

use axiom_rules::{Literal, Rule};
use mt_list::ListOf;
use mt_model::Steps;

/// A clause that a line cites.
#[derive(Clone, Copy, PartialEq, Eq)]
pub enum Hint {
    /// The clause of an earlier line, counted from 1.
    Line(u32),
    /// The clause of a rule.
    Rule(Rule),
}

/// The literals of a clause.
pub type Lits = ListOf<Literal>;

/// Hints one after another.
pub type Hints = ListOf<Hint>;

/// A line of a derivation.
#[derive(Drop)]
pub enum Line {
    /// A closed walk of negative sum. Its clause says that not all of its order steps hold.
    Cycle(Steps),
    /// A clause, and the hints that refute the negations of its literals.
    Learn { lits: Lits, hints: Hints },
}

/// The lines of a derivation.
pub type Lines = ListOf<Line>;
