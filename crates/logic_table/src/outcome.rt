//! What is said of a search.

use crate::writing::push_items;
use std::alloc::Global;
use table_case::push_line;

/// What is said of a search.
#[derive(Clone, Copy)]
pub enum Outcome {
    /// The log admits no timing, and nothing was searched.
    Inconsistent,
    /// A timing that the log admits and in which the formula has the value.
    Model,
    /// Right lines that refute the value, with fewer clauses learnt than the budget.
    Refuted,
    /// Right lines with as many clauses learnt as the budget.
    Spent(usize),
    /// Something else.
    Wrong(Fault),
}

/// What is wrong with what a search found.
#[derive(Clone, Copy)]
pub enum Fault {
    /// The numbers of a model are no times, one for each row.
    Times,
    /// The log doesn't admit the times of a model.
    NotAdmitted,
    /// The formula has the other value in the times of a model.
    OtherValue,
    /// The line of this number, from 1, is the first that isn't right.
    Line(u32),
    /// The lines of a refutation have no empty clause.
    NoEmptyClause,
    /// The lines of a spent budget have an empty clause.
    EmptyClause,
    /// So many clauses are learnt.
    Learnt(usize),
    /// There are so many lines, more than twice the budget.
    Lines(usize),
}

// Adds what is wrong.
fn push_fault(alloc: Global, fault: Fault, out: &mut Vec<u8>) -> Option<()> {
    match fault {
        Fault::Times => push_line(out, b"wrong: a model without times"),
        Fault::NotAdmitted => push_line(out, b"wrong: a model of no timing"),
        Fault::OtherValue => push_line(out, b"wrong: a model without the value"),
        Fault::Line(line) => push_items(alloc, "wrong: line", &[line], out),
        Fault::NoEmptyClause => push_line(out, b"wrong: no empty clause"),
        Fault::EmptyClause => push_line(out, b"wrong: an empty clause"),
        Fault::Learnt(count) => push_items(alloc, "wrong: clauses learnt", &[count], out),
        Fault::Lines(count) => push_items(alloc, "wrong: lines", &[count], out),
    }
}

/// Adds an outcome in words.
pub fn push_outcome(alloc: Global, outcome: Outcome, out: &mut Vec<u8>) -> Option<()> {
    match outcome {
        Outcome::Inconsistent => push_line(out, b"inconsistent"),
        Outcome::Model => push_line(out, b"model"),
        Outcome::Refuted => push_line(out, b"refuted"),
        Outcome::Spent(count) => push_items(alloc, "spent", &[count], out),
        Outcome::Wrong(fault) => push_fault(alloc, fault, out),
    }
}
