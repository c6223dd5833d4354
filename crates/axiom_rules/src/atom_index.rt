//! An index of a list of atoms.

ghost use Rattle.std.specs.Prelude.{◌≡◌, ◌<◌, ◌+◌, ◌^◌, [], false, length, OnOk, IfSome, None};
ghost use Rattle.axiom_rules.specs.AtomIndex.{IsIndex, bucket_of, number_of as number_of_atom};
ghost use Rattle.axiom_rules.specs.Atoms.{IsVar, has_atom};
ghost use Rattle.axiom_rules.specs.Literals.{same_atom};

use crate::literal::Atom;
use std::alloc::{AllocError, Global};

/// Where the first atoms of a list stand, as many of them as there are links: hashing with separate chaining (Knuth,
/// The Art of Computer Programming 3, 6.4). A link is one more than a place, or 0 at the end of a chain.
#[derive(Drop)]
pub struct AtomIndex {
    /// To the last atom of each bucket.
    heads: Vec<u32>,
    /// From each atom to the one before it in its bucket.
    links: Vec<u32>,
}

// By what the numbers of atoms are apart whose first events, or whose nodes or constants, follow one another.
const EVENT: u64 = 0x2545_f491;

const NODE: u64 = 0x1b87_3593;

// What counts of a constant is the remainder of its magnitude on division by this.
const CONSTANTS: u128 = 0x1_0000_0000;

// By what spans and gaps are apart from witnesses, and pairs of events at one instant from orders.
const SPAN: u64 = 0x1234_5678;

const GAP: u64 = 0x3456_789a;

const SAME: u64 = 0x5678_9abc;

// A number for an atom. Atoms of which only the last event differs have numbers that follow one another, so that what
// is looked up one after another stands near in memory: bounds from one event to others, which are by more than 0 where
// that event is the greater one, too.
fn number_of(atom: Atom) -> u64
    ensures { result ≡ number_of_atom atom }
{
    match atom {
        Atom::Order { e, f, c } => {
            let (first, last) = if 0 < c { (f, e) } else { (e, f) };
            NODE * (c.unsigned_abs() % CONSTANTS) as u64 + EVENT * first as u64 + last as u64
        }
        Atom::Node { k, e } => NODE * k as u64 + e as u64,
        Atom::First { e } => e as u64,
        Atom::Same { e, x } => EVENT * e as u64 + x as u64 + SAME,
        Atom::Wit { k, i, j } => NODE * k as u64 + EVENT * i as u64 + j as u64,
        Atom::Span { k, i, j } => NODE * k as u64 + EVENT * i as u64 + j as u64 + SPAN,
        Atom::Gap { k, i, m } => NODE * k as u64 + EVENT * i as u64 + m as u64 + GAP,
    }
}

fn are_equal(atom: Atom, other: Atom) -> bool
    ensures { result ≡ same_atom atom other }
{
    atom == other
}

impl AtomIndex {
    /// An index of no atoms, which takes no memory.
    pub fn new(alloc: Global) -> AtomIndex
        ensures heads { result.heads.items ≡ [] }
        ensures links { result.links.items ≡ [] }
    {
        AtomIndex {
            heads: Vec::new(alloc),
            links: Vec::new(alloc),
        }
    }

    // The bucket of an atom.
    fn bucket(&self, atom: Atom) -> usize
        requires { 0 < length self.now.heads.items }
        ensures bucket { result ≡ bucket_of (length self.now.heads.items) atom }
        ensures in_range { result < length self.now.heads.items }
    {
        (number_of(atom) % self.heads.len() as u64) as usize
    }

    // Takes in the next atom of the list, which is the one at this place.
    fn add(&mut self, atoms: &[Atom], place: usize) -> Result<(), AllocError>
        requires index { IsIndex atoms.now self.old }
        requires next { place ≡ length self.old.links.items }
        requires in_range { place < length atoms.now }
        requires few { length atoms.now < 2 ^ 32 }
        requires buckets { 0 < length self.old.heads.items }
        ensures index { IsIndex atoms.now self.new }
        ensures count { OnOk result (length self.new.links.items ≡ length self.old.links.items + 1) }
        ensures buckets { length self.new.heads.items ≡ length self.old.heads.items }
    {
        let bucket = self.bucket(atoms[place]);
        self.links.push(self.heads[bucket])?;
        self.heads[bucket] = place as u32 + 1;
        Ok(())
    }

    // Sees that there are more than twice as many buckets as atoms, so that chains are short. Where there weren't, there are
    // new ones, and the index is one of no atoms.
    fn make_room(&mut self, atoms: &[Atom]) -> Result<(), AllocError>
        requires index { IsIndex atoms.now self.old }
        requires few { length atoms.now < 2 ^ 32 }
        ensures index { IsIndex atoms.now self.new }
        ensures buckets { OnOk result (length atoms.now < length self.new.heads.items) }
    {
        if self.heads.len() <= 2 * atoms.len() {
            let heads = vec![in *self.heads.allocator(); 0; 4 * atoms.len() + 1]?;
            self.links.clear();
            self.heads = heads;
        }
        Ok(())
    }

    /// Extends the index to all atoms of the list.
    pub fn extend_to(&mut self, atoms: &[Atom]) -> Result<(), AllocError>
        requires index { IsIndex atoms.now self.old }
        requires few { length atoms.now < 2 ^ 32 }
        ensures index { IsIndex atoms.now self.new }
        ensures all { OnOk result (length self.new.links.items ≡ length atoms.now) }
        ensures buckets { OnOk result (0 < length self.new.heads.items) }
    {
        self.make_room(atoms)?;
        for place in self.links.len()..atoms.len() {
            self.add(atoms, place)?;
        }
        Ok(())
    }

    /// The place of an atom in the list.
    pub fn find(&self, atoms: &[Atom], atom: Atom) -> Option<u32>
        requires index { IsIndex atoms.now self.now }
        requires all { length self.now.links.items ≡ length atoms.now }
        requires buckets { 0 < length self.now.heads.items }
        ensures found { IfSome result (λ place. IsVar atoms.now place atom) }
        ensures none { result ≡ None → has_atom atoms.now atom ≡ false }
    {
        let mut link = self.heads[self.bucket(atom)];
        while link > 0 {
            let place = link - 1;
            if are_equal(atoms[place as usize], atom) {
                return Some(place);
            }
            link = self.links[place as usize];
        }
        None
    }
}
