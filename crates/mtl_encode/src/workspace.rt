//! What forming a clause needs, used again from one clause to the next.

use axiom_rules::Literal;
use clause_db::{Lit, Var};
use smallvec::SmallVec;
use std::alloc::Global;

/// How many places of a clause have a guess of their own.
pub const GUESSES: usize = 8;

/// Which variable the atom at a place of a clause may have: as far from that of the clause before as that was from its own.
/// Clauses of a rule come in the order of its arguments, and the variables of their atoms mostly do too.
#[derive(Clone, Copy)]
pub struct Guess {
    last: u32,
    step: u32,
}

impl Guess {
    /// The variable.
    pub fn var(&self) -> Var {
        Var::new(self.last.wrapping_add(self.step))
    }

    /// Takes in which one it is.
    pub fn learn(&mut self, var: Var) {
        self.step = var.get().wrapping_sub(self.last);
        self.last = var.get();
    }
}

/// The literals of a clause, those of their atoms' variables, and guesses of these.
#[derive(Drop)]
pub struct Workspace {
    pub clause: SmallVec<Literal, 8, Global>,
    pub lits: Vec<Lit>,
    pub guesses: [Guess; GUESSES],
}

impl Workspace {
    /// Without literals, which takes no memory.
    pub fn new(alloc: Global) -> Workspace {
        Workspace {
            clause: SmallVec::new(alloc),
            lits: Vec::new(alloc),
            guesses: [Guess { last: 0, step: 0 }; GUESSES],
        }
    }
}
