//! Clauses that are taken one after another under literals that are assumed.

ghost use Rattle.std.specs.Prelude.{◌≡◌, ◌↔◌, ◌<◌, ◌^◌, ◌∷◌, [], List, length, map, Contains, IsTrue, IfOk, OnErr, OnOk};
ghost use Rattle.axiom_rules.specs.declared.literal.Literal.{Literal};
ghost use Rattle.axiom_rules.specs.Literals.{negated};
ghost use Rattle.proof_check.specs.Places.{AreSortedPlaces};
ghost use Rattle.proof_check.specs.Refutation.{AreThose, IsLeft, IsTaken};
ghost use Rattle.proof_check.specs.Standing.{AreNoGaps};

use crate::atoms::Atoms;
use crate::given::Given;
use crate::guesses::Clue;
use crate::places::{first_place, sorted_places};
use axiom_rules::{Atom, Literal};
use std::alloc::{AllocError, Global};
use std::marker::Model;

/// What the literals that are assumed make of a clause.
#[derive(Clone, Copy, PartialEq, Eq)]
pub enum Taken {
    /// It left one literal open, which is assumed from now on.
    Gives,
    /// Each of its literals is false.
    False,
    /// It has a true literal, or more than one open one.
    Stuck,
}

// What is left of a clause without its false literals.
#[derive(Clone, Copy)]
enum Left {
    Nothing,
    Only(Literal),
    // A true literal, or two that differ.
    More,
}

/// Literals that are assumed: the negations of a clause's, and those that were given. Contracts see a list whose order
/// says nothing.
///
/// The clause stays where it stands, and is looked up by its places in the order of its literals. A look-up compares and
/// doesn't hash, since literals could be chosen that share a hash.
#[derive(Drop)]
pub struct Assumed<'a> {
    denied: &'a [Literal],
    places: Vec<u32>,
    given: Given,
    // The literals that were given, in their order, where they are listed.
    list: Vec<Literal>,
    is_listing: bool,
    // `Gap { k, i, m }` stands here where it was found that each event before m is no gap of node k from event i on.
    gapless: Atoms,
}

impl<'a> Model for Assumed<'a> {
    ghost use Rattle.std.specs.Prelude.{List, ◌++◌, map};
    ghost use Rattle.axiom_rules.specs.declared.literal.Literal.{Literal};
    ghost use Rattle.axiom_rules.specs.Literals.{negated};
    ghost use Rattle.proof_check.specs.Standing.{IsAssumedRight};

    ghost Value = { List Literal };

    ghost view = { λ a. map negated a.denied.now ++ a.given };

    ghost invariant = { λ a. IsAssumedRight a.denied.now a.places.items a.given a.list.items a.gapless };
}

impl<'a> Assumed<'a> {
    /// The negations of a clause's literals. Where `is_listing`, what is given from then on is listed too.
    pub fn denying(
        alloc: Global,
        lits: &'a [Literal],
        is_listing: bool,
    ) -> Result<Assumed<'a>, AllocError>
        requires few { length lits.now < 2 ^ 32 }
        ensures denied { IfOk result (λ assumed. assumed ≡ map negated lits.now) }
    {
        let places = sorted_places(alloc, lits)?;
        Ok(Assumed {
            denied: lits,
            places,
            given: Given::new(alloc),
            list: Vec::new(alloc),
            is_listing,
            gapless: Atoms::new(alloc),
        })
    }

    /// Whether a literal is assumed.
    pub fn has(&self, literal: &Literal) -> bool
        ensures { IsTrue result ↔ Contains self.now literal.now }
    {
        if is_denied(self.denied, &self.places, literal) {
            return true;
        }
        self.given.has(literal)
    }

    /// The literal that was assumed at a place, from 0: first those that are denied, then those that were given, where they
    /// are listed.
    pub fn listed(&self, place: usize) -> Option<Literal> {
        if place < self.denied.len() {
            return Some(self.denied[place].negated());
        }
        self.list.get(place - self.denied.len()).copied()
    }

    // Whether a literal is false by the one that was assumed at a place, if one is told.
    fn denies_at(&self, told: Option<usize>, literal: &Literal) -> bool
        ensures { IsTrue result → Contains self.now (negated literal.now) }
    {
        let Some(place) = told else {
            return false;
        };
        if place < self.denied.len() {
            is_at(self.denied, place, literal)
        } else {
            let later = place - self.denied.len();
            is_at(&self.list, later, &literal.negated())
        }
    }

    // Whether each event before one is no gap of a node from an event on.
    fn are_no_gaps(&self, k: u32, i: u32, count: u32) -> bool
        ensures { IsTrue result → AreNoGaps self.now k i count }
    {
        for x in 0..count {
            let gap = Literal {
                atom: Atom::Gap { k, i, m: x },
                positive: false,
            };
            if !self.has(&gap) {
                return false;
            }
        }
        true
    }

    /// Whether it is assumed that each event before one is no gap of a node from an event on. Where it is, this is found
    /// once.
    pub fn find_no_gaps(&mut self, k: u32, i: u32, count: u32) -> Result<bool, AllocError>
        ensures none { IfOk result (λ b. IsTrue b → AreNoGaps self.old k i count) }
        ensures kept { self.new ≡ self.old }
    {
        let all = Atom::Gap { k, i, m: count };
        if self.gapless.has(&all) {
            return Ok(true);
        }
        if !self.are_no_gaps(k, i, count) {
            return Ok(false);
        }
        add_or_forget(&mut self.gapless, all, *self.places.allocator())?;
        Ok(true)
    }

    // Assumes a literal.
    fn assume(&mut self, literal: Literal) -> Result<(), AllocError>
        ensures assumed { OnOk result (AreThose (literal ∷ self.old) self.new) }
    {
        match self.given.add(literal) {
            Ok(()) => {
                if self.is_listing {
                    self.list.push(literal)?;
                }
                Ok(())
            }
            Err(fault) => {
                self.list.clear();
                self.gapless = Atoms::new(*self.places.allocator());
                Err(fault)
            }
        }
    }

    // Takes a clause of which this is left.
    fn take_left(&mut self, left: Left) -> Result<Taken, AllocError>
        ensures taken { IfOk result (λ taken. (clause : List Literal) → IsLeft self.old clause left → IsTaken self.old clause self.new taken) }
    {
        match left {
            Left::Nothing => Ok(Taken::False),
            Left::Only(literal) => {
                self.assume(literal)?;
                Ok(Taken::Gives)
            }
            Left::More => Ok(Taken::Stuck),
        }
    }

    /// Takes the next clause, and assumes the literal that it gives. A clue makes it quick, whatever it tells. After want of
    /// memory nothing is known of what is assumed.
    pub fn take(&mut self, clause: &[Literal], clue: Clue) -> Result<Taken, AllocError>
        ensures taken { IfOk result (λ taken. IsTaken self.old clause.now self.new taken) }
    {
        let left = left_of(self, clause, clue);
        self.take_left(left)
    }
}

fn are_same(literal: &Literal, other: &Literal) -> bool
    ensures { IsTrue result → literal.now ≡ other.now }
{
    literal == other
}

// Whether a literal stands at a place.
fn is_at(literals: &[Literal], place: usize, literal: &Literal) -> bool
    ensures { IsTrue result → Contains literals.now literal.now }
{
    match literals.get(place) {
        Some(other) => are_same(other, literal),
        None => false,
    }
}

// Adds an atom. After want of memory none is there.
fn add_or_forget(atoms: &mut Atoms, atom: Atom, alloc: Global) -> Result<(), AllocError>
    ensures added { OnOk result (AreThose (atom ∷ atoms.old) atoms.new) }
    ensures forgot { OnErr result (atoms.new ≡ []) }
{
    if atoms.add(atom).is_err() {
        *atoms = Atoms::new(alloc);
        return Err(AllocError);
    }
    Ok(())
}

// Whether a clause whose places are in order has the negation of a literal.
fn is_denied(denied: &[Literal], places: &[u32], literal: &Literal) -> bool
    requires { AreSortedPlaces denied.now places.now }
    ensures { IsTrue result ↔ Contains (map negated denied.now) literal.now }
{
    match first_place(denied, places, &literal.negated()) {
        Some(_) => true,
        None => false,
    }
}

// What is left of a clause.
fn left_of(assumed: &Assumed, clause: &[Literal], clue: Clue) -> Left
    ensures { IsLeft assumed.now clause.now result }
{
    let mut open = None;
    let mut next = clue;
    for literal in clause {
        let told = next.at(literal);
        next = next.after();
        if assumed.denies_at(told, literal) {
            continue;
        }
        if assumed.has(&literal.negated()) {
            continue;
        }
        if assumed.has(literal) {
            return Left::More;
        }
        match open {
            None => open = Some(*literal),
            Some(other) => {
                if other != *literal {
                    return Left::More;
                }
            }
        }
    }
    match open {
        None => Left::Nothing,
        Some(literal) => Left::Only(literal),
    }
}
