//! Clauses in the order in which they were added, all their literals in one list.

ghost use Rattle.std.specs.Prelude.{◌≡◌, ◌+◌, ◌-◌, ◌^◌, ◌<◌, ◌≤◌, [], ◌∷◌, ◌++◌, length, map, slice_index, None, IfSome, IfOk, OnOk, OnErr};
ghost use Rattle.clause_db.specs.Literals.{HasVarsOnce};
ghost use Rattle.clause_db.specs.Clauses.{clause_at};
ghost use Rattle.clause_db.specs.Renaming.{AreApart, AreBelow, moved};

use crate::renaming::rename;
use crate::{ClauseRef, Lit};
use std::alloc::{AllocError, Global};
use std::marker::Model;

/// Clauses in the order in which they were added, which contracts see as a list of lists of
/// literals. In no clause does a variable stand twice.
#[derive(Drop)]
pub struct Db {
    lits: Vec<Lit>,
    ends: Vec<u32>,
}

impl Model for Db {
    ghost use Rattle.std.specs.Prelude.{List};
    ghost use Rattle.hint_refutation.specs.Pieces.{pieces_from};
    ghost use Rattle.clause_db.specs.declared.lit.Lit.{Lit};
    ghost use Rattle.clause_db.specs.Flat.{IsFlat};

    ghost Value = { List (List Lit) };

    ghost view = { λ d. pieces_from 0 d.lits.items d.ends.items };

    ghost invariant = { λ d. IsFlat d.lits.items d.ends.items };
}

impl Db {
    /// No clause, which takes no memory.
    pub fn new(alloc: Global) -> Db
        ensures empty { result ≡ [] }
    {
        Db {
            lits: Vec::new(alloc),
            ends: Vec::new(alloc),
        }
    }

    /// Adds a clause at the end. An error leaves the clauses as they were: memory was short, or they
    /// would have 2^32 literals in all or more.
    pub fn add(&mut self, lits: &[Lit]) -> Result<ClauseRef, AllocError>
        requires once { HasVarsOnce lits.now }
        requires room { length self.old < 2 ^ 32 - 1 }
        ensures ok { OnOk result (self.new ≡ self.old ++ lits.now ∷ []) }
        ensures place { IfOk result (λ c. c ≡ length self.old) }
        ensures err { OnErr result (self.new ≡ self.old) }
    {
        let place = ClauseRef::new(self.len());
        let Some(end) = end_after(self.lits.len(), lits.len()) else {
            return Err(AllocError);
        };
        // Room for the end comes first: nothing that fails stands after the literals.
        self.ends.reserve(1)?;
        self.lits.extend_from_slice(lits)?;
        self.ends.push(end)?;
        Ok(place)
    }

    /// The literals of a clause, in the order in which they were added.
    pub fn lits(&self, c: ClauseRef) -> &[Lit]
        requires { c < length self.now }
        ensures clause { result.now ≡ clause_at self.now c }
        ensures once { HasVarsOnce result.now }
    {
        let place = c.get() as usize;
        let start = start_of(&self.ends, place);
        &self.lits[start as usize..self.ends[place] as usize]
    }

    /// The number of literals of a clause.
    pub fn width(&self, c: ClauseRef) -> u32
        requires { c < length self.now }
        ensures width { result ≡ length (clause_at self.now c) }
    {
        let place = c.get() as usize;
        let start = start_of(&self.ends, place);
        self.ends[place] - start
    }

    /// The same clauses over other variables: a literal of variable v becomes that of variable `places[v]`, of the
    /// same sense. Takes no memory.
    pub fn renamed(mut self, places: &[u32]) -> Db
        requires below { AreBelow (length places.now) self }
        requires apart { AreApart places.now }
        ensures clauses { result ≡ map (map (moved places.now)) self }
    {
        rename(&mut self.lits, places);
        self
    }

    /// How many clauses there are.
    pub fn len(&self) -> u32
        ensures count { result ≡ length self.now }
    {
        self.ends.len() as u32
    }
}

// Where a clause of so many literals ends that starts at a place, and None where that is no u32.
fn end_after(start: usize, count: usize) -> Option<u32>
    ensures end { IfSome result (λ end. end ≡ start + count) }
    ensures none { result ≡ None → 2 ^ 32 ≤ start + count }
{
    let end = start.checked_add(count)?;
    u32::try_from(end).ok()
}

// Where the clause at a place starts: at the end of the one before it.
fn start_of(ends: &[u32], place: usize) -> u32
    requires { place < length ends.now }
    ensures first { place ≡ 0 → result ≡ 0 }
    ensures later { 0 < place → result ≡ slice_index ends.now (place - 1) }
{
    if place == 0 { 0 } else { ends[place - 1] }
}
