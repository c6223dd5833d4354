//! What is wrong with the text of a derivation.

use std::alloc::AllocError;
use thiserror::Error;

/// What is wrong with the text of a derivation, or want of memory.
#[derive(Clone, Copy, Debug, Error)]
pub enum LineFault {
    /// The first line, counted from 1, that isn't in the grammar.
    #[error("line {line} is no line of a derivation")]
    Syntax { line: u32 },
    /// Want of memory.
    #[error("out of memory")]
    Memory,
}

impl From<AllocError> for LineFault {
    ghost use Rattle.std.specs.Prelude.{◌≡◌};
    ghost use Rattle.proof_log.specs.declared.fault.LineFault.TheVariants.{Memory};

    ghost from_gives = { λ _ f. f ≡ Memory };

    fn from(_: AllocError) -> Self {
        LineFault::Memory
    }
}
