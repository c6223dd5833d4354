//! Why a JSON file is no log.

use log_read::LogFault;
use std::alloc::AllocError;
use thiserror::Error;

/// Why a JSON file is no log, or want of memory.
#[derive(Clone, Copy, Debug, Error)]
pub enum JsonFault {
    /// The bytes are not one JSON value.
    #[error("the file is not one JSON value")]
    Syntax,
    /// The value has not the shape of a log.
    #[error("the JSON value has not the shape of a log")]
    Shape,
    /// The fault of the records that the value has; it is never want of memory.
    #[error("{0}")]
    Log(LogFault),
    /// There is no memory.
    #[error("out of memory")]
    Memory,
}

impl From<AllocError> for JsonFault {
    ghost use Rattle.std.specs.Prelude.{◌≡◌};
    ghost use Rattle.json_log.specs.declared.fault.JsonFault.TheVariants.{Memory};

    ghost from_gives = { λ _ f. f ≡ Memory };

    fn from(_: AllocError) -> Self {
        JsonFault::Memory
    }
}
