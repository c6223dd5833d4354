//! Where and why the reading of a report stops.

use std::alloc::AllocError;

/// Why reading stopped.
#[derive(Clone, Copy)]
pub enum Stop {
    /// No report goes on with the line that comes next; so many bytes are left from there on.
    Syntax { left: usize },
    Memory,
}

impl From<AllocError> for Stop {
    ghost use Rattle.std.specs.Prelude.{◌≡◌};
    ghost use Rattle.report_text.specs.declared.stop.Stop.TheVariants.{Memory};

    ghost from_gives = { λ _ f. f ≡ Memory };

    fn from(_: AllocError) -> Self {
        Stop::Memory
    }
}
