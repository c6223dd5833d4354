//! Why nothing is judged.

use formula_arena::ArenaFault;
use std::alloc::AllocError;
use thiserror::Error;

/// Why a formula isn't judged of a log.
#[derive(Clone, Copy, Debug, Error)]
pub enum QuestionFault {
    /// The number, from 0 and from left to right, of the first proposition whose host isn't in the log.
    #[error("the host of proposition {index} isn't in the log")]
    UnknownHost { index: u32 },
    /// The formula has more than 512 nodes.
    #[error("more than 512 nodes")]
    TooManyNodes,
    /// The size of the problem is above 4,194,304 (`size_of`).
    #[error("size {size}")]
    TooLarge { size: u128 },
    /// There is no memory.
    #[error("out of memory")]
    Memory,
}

impl From<AllocError> for QuestionFault {
    ghost use Rattle.std.specs.Prelude.{◌≡◌};
    ghost use Rattle.question.specs.declared.fault.QuestionFault.TheVariants.{Memory};

    ghost from_gives = { λ _ f. f ≡ Memory };

    fn from(_: AllocError) -> Self {
        QuestionFault::Memory
    }
}

impl From<ArenaFault> for QuestionFault {
    ghost use Rattle.question.specs.Faults.{IsOfArena};

    ghost from_gives = { IsOfArena };

    fn from(fault: ArenaFault) -> Self {
        match fault {
            ArenaFault::TooManyNodes => QuestionFault::TooManyNodes,
            ArenaFault::Memory => QuestionFault::Memory,
        }
    }
}
