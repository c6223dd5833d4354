//! The atoms that have variables.

ghost use Rattle.std.specs.Prelude.{◌≡◌, ◌≢◌, ◌<◌, ◌-◌, ◌^◌, [], length, All, AllPairs, IfOk, OnOk, OnErr};
ghost use Rattle.axiom_rules.specs.AtomIndex.{AreTaken};
ghost use Rattle.axiom_rules.specs.Atoms.{AreOnce, IsVar, with_atom};

use crate::atom_index::AtomIndex;
use crate::literal::Atom;
use clause_db::Var;
use std::alloc::{AllocError, Global};
use std::marker::Model;

/// Atoms with a variable each, which contracts see as a list: the variable of an atom is its place.
///
/// Look-ups hash without random state.
#[derive(Drop)]
pub struct AtomTable {
    atoms: Vec<Atom>,
    index: AtomIndex,
}

impl Model for AtomTable {
    ghost use Rattle.std.specs.Prelude.{List};
    ghost use Rattle.axiom_rules.specs.declared.literal.Atom.{Atom};
    ghost use Rattle.axiom_rules.specs.AtomIndex.{IsTable};

    ghost Value = { List Atom };

    ghost view = { λ t. t.atoms.items };

    ghost invariant = { λ t. IsTable t.atoms.items t.index };
}

impl AtomTable {
    /// A table without atoms, which takes no memory.
    pub fn new(alloc: Global) -> AtomTable
        ensures empty { result ≡ [] }
    {
        AtomTable {
            atoms: Vec::new(alloc),
            index: AtomIndex::new(alloc),
        }
    }

    /// The variable of an atom, which is added at the end where it isn't there. Want of memory leaves the
    /// table as it was.
    pub fn intern(&mut self, atom: Atom) -> Result<Var, AllocError>
        requires room { length self.old < 2 ^ 32 - 1 }
        ensures var { IfOk result (λ v. IsVar self.new v atom) }
        ensures atoms { OnOk result (self.new ≡ with_atom self.old atom) }
        ensures err { OnErr result (self.new ≡ self.old) }
        ensures once { AreOnce self.new }
    {
        self.index.extend_to(&self.atoms)?;
        let place = match self.index.find(&self.atoms, atom) {
            Some(place) => place,
            None => {
                self.atoms.push(atom)?;
                self.atoms.len() as u32 - 1
            }
        };
        Ok(Var::new(place))
    }

    /// The atom of a variable. Takes no memory.
    pub fn atom(&self, var: Var) -> Atom
        requires { var < length self.now }
        ensures atom { IsVar self.now var result }
    {
        self.atoms[var.get() as usize]
    }

    /// The number of atoms. Takes no memory.
    pub fn len(&self) -> u32
        ensures atoms { result ≡ length self.now }
        ensures once { AreOnce self.now }
    {
        self.atoms.len() as u32
    }

    /// The table of the atoms of these variables, in their order.
    pub fn taken(&self, alloc: Global, vars: &[Var]) -> Result<AtomTable, AllocError>
        requires below { All (λ v. v < length self.now) vars.now }
        requires apart { AllPairs (λ v w. v ≢ w) vars.now }
        requires few { length vars.now < 2 ^ 32 }
        ensures atoms { IfOk result (AreTaken self.now vars.now) }
    {
        // For the proof: the call says that each atom has one variable.
        let _ = self.len();
        let mut atoms = Vec::new(alloc);
        for var in vars {
            atoms.push(self.atom(*var))?;
        }
        Ok(AtomTable {
            atoms,
            index: AtomIndex::new(alloc),
        })
    }
}
