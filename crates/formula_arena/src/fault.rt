//! Why a formula has no node.

use std::alloc::AllocError;
use thiserror::Error;

/// Why a formula has no node.
#[derive(Clone, Copy, Debug, Error)]
pub enum ArenaFault {
    /// The arena would hold more than 512 nodes.
    #[error("more than 512 nodes")]
    TooManyNodes,
    /// There is no memory.
    #[error("out of memory")]
    Memory,
}

impl From<AllocError> for ArenaFault {
    ghost use Rattle.std.specs.Prelude.{◌≡◌};
    ghost use Rattle.formula_arena.specs.declared.fault.ArenaFault.TheVariants.{Memory};

    ghost from_gives = { λ _ f. f ≡ Memory };

    fn from(_: AllocError) -> Self {
        ArenaFault::Memory
    }
}
