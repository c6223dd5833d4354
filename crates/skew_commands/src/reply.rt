//! How the work of a command ends: with a reply, or early.

use crate::refusal::Refusal;
use skew_answers::Status;
use std::alloc::AllocError;

/// What is written, and the status where that goes well.
#[derive(Drop)]
pub struct Reply {
    pub text: Vec<u8>,
    pub status: Status,
}

/// Why the work of a command ended early.
#[derive(Clone, Copy)]
pub enum Stop {
    /// What its files hold is refused.
    Refused(Refusal),
    /// Memory ran out.
    NoMemory,
    /// A file could not be opened or read.
    ReadFailed,
}

impl From<AllocError> for Stop {
    ghost use Rattle.std.specs.Prelude.{◌≡◌};
    ghost use Rattle.skew_commands.specs.declared.reply.Stop.TheVariants.{NoMemory};

    ghost from_gives = { λ _ e. e ≡ NoMemory };

    fn from(_: AllocError) -> Self {
        Stop::NoMemory
    }
}
