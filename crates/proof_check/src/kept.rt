//! The clauses of lines that are kept while later lines are judged.

ghost use Rattle.std.specs.Prelude.{◌≡◌, ◌-◌, ◌<◌, ◌≤◌, ◌^◌, [], ◌∷◌, ◌++◌, length, option_copied, slice_get, slice_index, slice_index_or, OnOk};
ghost use Rattle.axiom_rules.specs.Parts.{each_once};
ghost use Rattle.proof_check.specs.Keeping.{closed_only};

use crate::places::{are_first, keep_marked};
use axiom_rules::Literal;
use std::alloc::{AllocError, Global};
use std::marker::Model;

/// The clauses of lines, in the order in which they were closed, and after them the literals of one that isn't yet.
///
/// All literals stand in one list: a list for each clause would take several times their room, and a literal that is
/// pending needn't move.
#[derive(Drop)]
pub struct Clauses {
    literals: Vec<Literal>,
    // The place after the last literal of each clause that is closed.
    ends: Vec<usize>,
}

impl Model for Clauses {
    ghost use Rattle.std.specs.Prelude.{length};
    ghost use Rattle.hint_refutation.specs.Pieces.{Rise};
    ghost use Rattle.proof_check.specs.Keeping.{Kept, kept_in};

    ghost Value = { Kept };

    ghost view = { λ c. kept_in c.literals.items c.ends.items };

    ghost invariant = { λ c. Rise 0 c.ends.items (length c.literals.items) };
}

impl Clauses {
    /// No clause, which takes no memory.
    pub fn new(alloc: Global) -> Clauses
        ensures empty { result ≡ closed_only [] }
    {
        Clauses {
            literals: Vec::new(alloc),
            ends: Vec::new(alloc),
        }
    }

    /// Adds a literal to the pending clause.
    pub fn push(&mut self, literal: Literal) -> Result<(), AllocError>
        ensures ok { OnOk result (self.new ≡ record { closed = self.old.closed; pending = self.old.pending ++ literal ∷ [] }) }
    {
        self.literals.push(literal)?;
        Ok(())
    }

    /// The literals of the pending clause.
    pub fn pending(&self) -> &[Literal]
        ensures literals { result.now ≡ self.now.pending }
    {
        let start = start_of(&self.ends, self.ends.len());
        let end = self.literals.len();
        &self.literals[start..end]
    }

    /// Leaves each literal of the pending clause where it first stands, and nowhere else.
    pub fn keep_first(&mut self, alloc: Global) -> Result<(), AllocError>
        requires few { length self.old.pending < 2 ^ 32 }
        ensures ok { OnOk result (self.new ≡ record { closed = self.old.closed; pending = each_once self.old.pending }) }
    {
        let first = are_first(alloc, self.pending())?;
        let start = start_of(&self.ends, self.ends.len());
        keep_marked(&mut self.literals, start, first.as_slice());
        Ok(())
    }

    /// Closes the pending clause.
    pub fn close(&mut self) -> Result<(), AllocError>
        ensures ok { OnOk result (self.new ≡ closed_only (self.old.closed ++ self.old.pending ∷ [])) }
    {
        let end = self.literals.len();
        self.ends.push(end)?;
        Ok(())
    }

    // The closed clause at a place where there is one.
    fn at(&self, place: usize) -> &[Literal]
        requires { place < length self.now.closed }
        ensures clause { result.now ≡ slice_index_or self.now.closed place [] }
    {
        let start = start_of(&self.ends, place);
        &self.literals[start..self.ends[place]]
    }

    /// The closed clause at a place, from 0.
    pub fn get(&self, place: usize) -> Option<&[Literal]>
        ensures clause { option_copied result ≡ slice_get self.now.closed place }
    {
        if place < self.len() {
            Some(self.at(place))
        } else {
            None
        }
    }

    /// The last closed clause.
    pub fn last(&self) -> Option<&[Literal]>
        ensures clause { option_copied result ≡ slice_get self.now.closed (length self.now.closed - 1) }
    {
        self.get(self.len().saturating_sub(1))
    }

    /// The literals of all clauses, at the end those of the pending one.
    pub fn literals(&self) -> &[Literal] {
        &self.literals
    }

    /// Where the clause at a place starts among the literals of all clauses; past the last clause 0.
    pub fn start(&self, place: usize) -> usize {
        if place < self.ends.len() {
            start_of(&self.ends, place)
        } else {
            0
        }
    }

    /// How many clauses are closed.
    pub fn len(&self) -> usize
        ensures count { result ≡ length self.now.closed }
    {
        self.ends.len()
    }
}

// Where the clause at a place starts: at the end of the one before it.
fn start_of(ends: &[usize], place: usize) -> usize
    requires { place ≤ length ends.now }
    ensures first { place ≡ 0 → result ≡ 0 }
    ensures later { 0 < place → result ≡ slice_index ends.now (place - 1) }
{
    if place == 0 { 0 } else { ends[place - 1] }
}
