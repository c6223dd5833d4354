//! Why lines can't be trimmed.

use std::alloc::AllocError;
use thiserror::Error;

/// Why lines can't be trimmed, or want of memory.
#[derive(Clone, Copy, Debug, Error)]
pub enum TrimFault {
    /// There is no line.
    #[error("there is no line")]
    Empty,
    /// The first line, counted from 1, with a hint that names a line which does not come before it.
    #[error("a hint of line {line} names no earlier line")]
    Hint { line: u32 },
    /// Want of memory.
    #[error("out of memory")]
    Memory,
}

impl From<AllocError> for TrimFault {
    ghost use Rattle.std.specs.Prelude.{◌≡◌};
    ghost use Rattle.proof_trim.specs.declared.fault.TrimFault.TheVariants.{Memory};

    ghost from_gives = { λ _ f. f ≡ Memory };

    fn from(_: AllocError) -> Self {
        TrimFault::Memory
    }
}
