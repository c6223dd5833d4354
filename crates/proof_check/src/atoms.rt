//! Atoms of which many can be kept in little room.

ghost use Rattle.std.specs.Prelude.{◌≡◌, ◌↔◌, [], ◌∷◌, ◌++◌, Contains, IsTrue, OnOk};
ghost use Rattle.std.specs.List.Sorted.{IsPermutation, IsSorted};
ghost use Rattle.axiom_rules.specs.contracts.literal.AtomOrd.TheImpl.{cmp-value as atom_cmp};
ghost use Rattle.proof_check.specs.Refutation.{AreThose};

use axiom_rules::Atom;
use std::alloc::{AllocError, Global};
use std::collections::BTreeSet;
use std::marker::Model;

// As many atoms stand in the set before the list gets any.
const FEW: usize = 1_024;

/// Atoms, each of which was added. Contracts see a list whose order says nothing.
///
/// Where there are many, all but an eighth stand in one list, since the set takes almost three times the room. They are
/// compared, not hashed, since atoms could be chosen that share a hash.
#[derive(Drop)]
pub struct Atoms {
    sorted: Vec<Atom>,
    recent: BTreeSet<Atom>,
}

impl Model for Atoms {
    ghost use Rattle.std.specs.Prelude.{List, ◌++◌};
    ghost use Rattle.std.specs.List.Sorted.{IsSorted};
    ghost use Rattle.axiom_rules.specs.declared.literal.Atom.{Atom};
    ghost use Rattle.axiom_rules.specs.contracts.literal.AtomOrd.TheImpl.{cmp-value as atom_cmp};

    ghost Value = { List Atom };

    ghost view = { λ a. a.sorted.items ++ a.recent.keys };

    ghost invariant = { λ a. IsSorted atom_cmp.it a.sorted.items };
}

impl Atoms {
    /// No atom, which takes no memory.
    pub fn new(alloc: Global) -> Atoms
        ensures none { result ≡ [] }
    {
        Atoms {
            sorted: Vec::new(alloc),
            recent: BTreeSet::new(alloc),
        }
    }

    /// Whether an atom was added.
    pub fn has(&self, atom: &Atom) -> bool
        ensures stands { IsTrue result ↔ Contains self.now atom.now }
    {
        if is_recent(&self.recent, atom) {
            return true;
        }
        is_among(&self.sorted, atom)
    }

    /// Adds an atom, which may have been added already. After want of memory nothing is known of what was added.
    pub fn add(&mut self, atom: Atom) -> Result<(), AllocError>
        ensures added { OnOk result (AreThose (atom ∷ self.old) self.new) }
    {
        add_recent(&mut self.recent, atom)?;
        if are_many(self.recent.len(), self.sorted.len()) {
            merge(&mut self.sorted, &mut self.recent)?;
        }
        Ok(())
    }
}

// Whether so many atoms stand in the set that they should move into the list.
fn are_many(recent: usize, sorted: usize) -> bool {
    recent > FEW && recent > sorted / 8
}

// Whether a set has an atom.
fn is_recent(recent: &BTreeSet<Atom>, atom: &Atom) -> bool
    ensures { IsTrue result ↔ Contains recent.now.keys atom.now }
{
    recent.contains(atom)
}

// Whether an atom stands in a list that is in order.
fn is_among(sorted: &[Atom], atom: &Atom) -> bool
    requires { IsSorted atom_cmp.it sorted.now }
    ensures { IsTrue result ↔ Contains sorted.now atom.now }
{
    match sorted.binary_search(atom) {
        Ok(_) => true,
        Err(_) => false,
    }
}

// Adds an atom to a set, which may have it already.
fn add_recent(recent: &mut BTreeSet<Atom>, atom: Atom) -> Result<(), AllocError>
    ensures { OnOk result (AreThose (atom ∷ recent.old.keys) recent.new.keys) }
{
    recent.insert(atom)?;
    Ok(())
}

// Moves the atoms of a set to the end of a list, with no more room than they take.
fn move_all(atoms: &mut Vec<Atom>, set: &mut BTreeSet<Atom>) -> Result<(), AllocError>
    ensures { OnOk result (atoms.new.items ++ set.new.keys ≡ atoms.old.items ++ set.old.keys) }
{
    atoms.reserve_exact(set.len())?;
    'each: while let Some(atom) = set.pop_first() {
        atoms.push(atom)?;
    }
    Ok(())
}

// Moves the atoms of a set into a list, which is in order from then on.
fn merge(sorted: &mut Vec<Atom>, recent: &mut BTreeSet<Atom>) -> Result<(), AllocError>
    ensures in_order { IsSorted atom_cmp.it sorted.new.items }
    ensures moved { OnOk result (IsPermutation (sorted.old.items ++ recent.old.keys) (sorted.new.items ++ recent.new.keys)) }
{
    let moved = move_all(sorted, recent);
    sorted.sort_unstable();
    moved
}
