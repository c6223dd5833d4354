//! Where literals stand in a list, found by an order of its places.

ghost use Rattle.std.specs.Prelude.{◌≡◌, ◌↔◌, ◌+◌, ◌<◌, ◌^◌, ◌++◌, Contains, length, take, drop, slice_set, IfOk, IsTrue, MatchOption};
ghost use Rattle.std.specs.List.{range_with_len};
ghost use Rattle.axiom_rules.specs.Parts.{each_once};
ghost use Rattle.proof_log.specs.Marks.{marked};
ghost use Rattle.proof_check.specs.Places.{AreSortedPlaces, StandsFirst, comes_before as comes_before_of, literal_at as literal_at_of};

use axiom_rules::{Atom, Literal};
use std::alloc::{AllocError, Global};
use std::cmp::Ordering;

// The literal at a place; past the end any other.
fn literal_at(lits: &[Literal], place: u32) -> Literal
    ensures { result ≡ literal_at_of lits.now place }
{
    match lits.get(place as usize) {
        Some(literal) => *literal,
        None => Literal {
            atom: Atom::First { e: 0 },
            positive: true,
        },
    }
}

// Whether the literal at a place comes before another.
fn comes_before(lits: &[Literal], place: u32, literal: &Literal) -> bool
    ensures { result ≡ comes_before_of (literal_at_of lits.now place) literal.now }
{
    literal_at(lits, place).cmp(literal) == Ordering::Less
}

// The numbers below one.
fn places_below(alloc: Global, count: u32) -> Result<Vec<u32>, AllocError>
    ensures { IfOk result (λ places. places.items ≡ range_with_len 0 count) }
{
    let mut places = Vec::new(alloc);
    places.reserve(count as usize)?;
    for place in 0..count {
        places.push(place)?;
    }
    Ok(places)
}

/// The places of a list in the order of its literals, and those of one literal as they stand.
pub fn sorted_places(alloc: Global, lits: &[Literal]) -> Result<Vec<u32>, AllocError>
    requires few { length lits.now < 2 ^ 32 }
    ensures { IfOk result (λ places. AreSortedPlaces lits.now places.items) }
{
    let mut places = places_below(alloc, lits.len() as u32)?;
    places.sort_by_key(|place| literal_at(lits, *place))?;
    Ok(places)
}

/// The first place of a literal, found by the places in their order.
pub fn first_place(lits: &[Literal], places: &[u32], literal: &Literal) -> Option<u32>
    requires sorted { AreSortedPlaces lits.now places.now }
    ensures { MatchOption result (Contains lits.now literal.now → ⊥) (λ place. StandsFirst lits.now literal.now place) }
{
    let at = places.partition_point(|place| comes_before(lits, *place, literal));
    let Some(place) = places.get(at) else {
        return None;
    };
    if literal_at(lits, *place) == *literal {
        Some(*place)
    } else {
        None
    }
}

// Whether the literal at a place stands there first.
fn is_first(lits: &[Literal], places: &[u32], place: u32) -> bool
    requires sorted { AreSortedPlaces lits.now places.now }
    requires within { place < length lits.now }
    ensures { IsTrue result ↔ (Contains (take place lits.now) (literal_at_of lits.now place) → ⊥) }
{
    match first_place(lits, places, &literal_at(lits, place)) {
        Some(first) => first == place,
        None => false,
    }
}

/// For each literal of a list whether it stands there first.
pub fn are_first(alloc: Global, lits: &[Literal]) -> Result<Vec<bool>, AllocError>
    requires few { length lits.now < 2 ^ 32 }
    ensures { IfOk result (λ first. (length first.items ≡ length lits.now) × (marked first.items lits.now ≡ each_once lits.now)) }
{
    let places = sorted_places(alloc, lits)?;
    let mut first = Vec::new(alloc);
    first.reserve(lits.len())?;
    for place in 0..lits.len() as u32 {
        first.push(is_first(lits, places.as_slice(), place))?;
    }
    Ok(first)
}

// Writes the literal at one place to another.
fn copy_within(literals: &mut Vec<Literal>, from: usize, to: usize)
    requires from { from < length literals.old.items }
    requires to { to < length literals.old.items }
    ensures { literals.new.items ≡ slice_set literals.old.items to (literal_at_of literals.old.items from) }
{
    literals[to] = literals[from];
}

/// Keeps, of the literals from a place on, those that are marked.
pub fn keep_marked(literals: &mut Vec<Literal>, start: usize, marks: &[bool])
    requires { start + length marks.now ≡ length literals.old.items }
    ensures { literals.new.items ≡ take start literals.old.items ++ marked marks.now (drop start literals.old.items) }
{
    let mut end = start;
    for (i, is_kept) in marks.iter().enumerate() {
        if *is_kept {
            copy_within(literals, start + i, end);
            end += 1;
        }
    }
    literals.truncate(end);
}
