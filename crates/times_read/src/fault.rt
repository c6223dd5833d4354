//! What can be wrong with a file of times, by number and line.

ghost use Rattle.std.specs.Prelude.{◌≡◌};
ghost use Rattle.times_read.specs.Faults.{number_of};

use std::alloc::AllocError;
use thiserror::Error;

/// What is wrong with a times file, or want of memory. Lines count from 1.
#[derive(Clone, Copy, Debug, Error)]
pub enum TimesFault {
    /// A line writes no number, or one of a magnitude above 10^19.
    #[error("line {line} is no number from -10^19 to 10^19")]
    Number { line: u32 },
    /// A line is missing, or there is one too many.
    #[error("line {line} is missing or too many")]
    Count { line: u32 },
    /// There is no memory.
    #[error("out of memory")]
    Memory,
}

impl TimesFault {
    /// Its number, 1 or 2, and 0 for want of memory.
    pub fn number(&self) -> u8
        ensures number { result ≡ number_of self.now }
    {
        match self {
            TimesFault::Memory => 0,
            TimesFault::Number { .. } => 1,
            TimesFault::Count { .. } => 2,
        }
    }
}

impl From<AllocError> for TimesFault {
    ghost use Rattle.std.specs.Prelude.{◌≡◌};
    ghost use Rattle.times_read.specs.declared.fault.TimesFault.TheVariants.{Memory};

    ghost from_gives = { λ _ f. f ≡ Memory };

    fn from(_: AllocError) -> Self {
        TimesFault::Memory
    }
}
