//! The watched literals of a clause, and the clauses that watch a literal.

ghost use Rattle.std.specs.Prelude.{◌≡◌, ◌+◌, ◌^◌, ◌<◌, [], ◌∷◌, ◌++◌, length, IfSome, IsNone, OnOk, OnErr, slice_index_or, ◌≤◌};
ghost use Rattle.std.specs.List.{swap_remove};
ghost use Rattle.propagate.specs.Watching.{list_in, with_list};

use clause_db::{ClauseRef, Lit};
use std::alloc::{AllocError, Global};
use std::marker::Model;

/// Two different literals of a clause that are watched.
#[derive(Clone, Copy)]
pub struct Watch {
    pub first: Lit,
    pub second: Lit,
}

/// A clause that watches a literal, and its place among those that do.
#[derive(Clone, Copy)]
pub struct Watcher {
    pub clause: ClauseRef,
    pub lit: Lit,
    pub place: usize,
}

/// The clauses that watch the literals of a variable, which contracts see as two lists: those of the
/// positive literal, and those of the negative one.
#[derive(Drop)]
pub struct Watchers {
    positive: Vec<ClauseRef>,
    negative: Vec<ClauseRef>,
}

impl Model for Watchers {
    ghost use Rattle.std.specs.Prelude.{ℕ, List};

    ghost Value = { List ℕ × List ℕ };

    ghost view = { λ w. (w.positive.items, w.negative.items) };
}

impl Watchers {
    /// No clauses, which takes no memory.
    pub fn new(alloc: Global) -> Watchers
        ensures none { result ≡ ([], []) }
    {
        Watchers {
            positive: Vec::new(alloc),
            negative: Vec::new(alloc),
        }
    }

    /// The clause at a place among those of a literal, and None behind the last.
    pub fn get(&self, positive: bool, place: usize) -> Option<ClauseRef>
        ensures some { IfSome result (λ c. (place < length (list_in self.now positive)) × (slice_index_or (list_in self.now positive) place 0 ≡ c)) }
        ensures none { IsNone result → length (list_in self.now positive) ≤ place }
        ensures few { IfSome result (λ _. place + 1 < 2 ^ 64) }
    {
        if positive {
            self.positive.get(place).copied()
        } else {
            self.negative.get(place).copied()
        }
    }

    /// Adds a clause to those of a literal; want of memory leaves them as they were.
    pub fn push(&mut self, positive: bool, clause: ClauseRef) -> Result<(), AllocError>
        ensures ok { OnOk result (self.new ≡ with_list self.old positive (list_in self.old positive ++ clause ∷ [])) }
        ensures err { OnErr result (self.new ≡ self.old) }
    {
        if positive {
            self.positive.push(clause)?;
        } else {
            self.negative.push(clause)?;
        }
        Ok(())
    }

    /// Removes the clause at a place from those of a literal, and moves the last one there.
    pub fn remove(&mut self, positive: bool, place: usize)
        requires in_range { place < length (list_in self.old positive) }
        ensures removed { self.new ≡ with_list self.old positive (swap_remove (list_in self.old positive) place 0) }
    {
        if positive {
            self.positive.swap_remove(place);
        } else {
            self.negative.swap_remove(place);
        }
    }
}
