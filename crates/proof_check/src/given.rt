//! Literals that hints gave.

ghost use Rattle.std.specs.Prelude.{◌≡◌, ◌↔◌, [], ◌∷◌, Contains, IsTrue, OnOk};
ghost use Rattle.proof_check.specs.Refutation.{AreThose};

use crate::atoms::Atoms;
use axiom_rules::Literal;
use std::alloc::{AllocError, Global};
use std::marker::Model;

/// Literals that were given. Contracts see a list whose order says nothing.
///
/// The atoms of each sense stand apart: a literal takes half as much room again as its atom.
#[derive(Drop)]
pub struct Given {
    positive: Atoms,
    negative: Atoms,
}

impl Model for Given {
    ghost use Rattle.std.specs.Prelude.{List, ◌++◌, map};
    ghost use Rattle.axiom_rules.specs.declared.literal.Literal.{Literal};
    ghost use Rattle.axiom_rules.specs.Literals.{yes, no};

    ghost Value = { List Literal };

    ghost view = { λ g. map yes g.positive ++ map no g.negative };
}

impl Given {
    /// No literal, which takes no memory.
    pub fn new(alloc: Global) -> Given
        ensures none { result ≡ [] }
    {
        Given {
            positive: Atoms::new(alloc),
            negative: Atoms::new(alloc),
        }
    }

    /// Whether a literal was given.
    pub fn has(&self, literal: &Literal) -> bool
        ensures stands { IsTrue result ↔ Contains self.now literal.now }
    {
        if literal.positive {
            self.positive.has(&literal.atom)
        } else {
            self.negative.has(&literal.atom)
        }
    }

    /// Adds a literal, which may have been given already. After want of memory nothing is known of what was given.
    pub fn add(&mut self, literal: Literal) -> Result<(), AllocError>
        ensures added { OnOk result (AreThose (literal ∷ self.old) self.new) }
    {
        if literal.positive {
            self.positive.add(literal.atom)
        } else {
            self.negative.add(literal.atom)
        }
    }
}
