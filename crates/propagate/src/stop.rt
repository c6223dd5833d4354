//! What stops propagation.

ghost use Rattle.std.specs.Prelude.{◌≡◌, IfOk, OnErr};
ghost use Rattle.propagate.specs.declared.stop.Stop.{Stop};
ghost use Rattle.propagate.specs.declared.stop.Stop.TheVariants as stop;
ghost use Rattle.propagate.specs.Reach.{IsToldAs};

use crate::Reached;
use clause_db::{ClauseRef, Lit};
use std::alloc::AllocError;

// Why propagation stopped before it came to rest: this clause is false, the edge of this literal was refused, or memory is wanted.
#[derive(Clone, Copy)]
pub enum Stop {
    Clause(ClauseRef),
    Theory(Lit),
    Memory,
}

impl From<AllocError> for Stop {
    ghost use Rattle.std.specs.Prelude.{◌≡◌};
    ghost use Rattle.propagate.specs.declared.stop.Stop.TheVariants.{Memory};

    ghost from_gives = { λ _ s. s ≡ Memory };

    fn from(_: AllocError) -> Self {
        Stop::Memory
    }
}

impl Stop {
    // What is told of it.
    pub fn told(self) -> Result<Reached, AllocError>
        ensures told { IfOk result (IsToldAs self) }
        ensures memory { OnErr result (self ≡ stop.Memory) }
    {
        match self {
            Stop::Clause(clause) => Ok(Reached::ClauseConflict(clause)),
            Stop::Theory(lit) => Ok(Reached::TheoryConflict(lit)),
            Stop::Memory => Err(AllocError),
        }
    }
}
