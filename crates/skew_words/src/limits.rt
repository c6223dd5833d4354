//! The limits of the numbers that words write, in one place.

ghost use Rattle.std.specs.Prelude.{◌≡◌};

/// The number of conflicts of each section of a report or of each search, where none is given.
pub const DEFAULT_CONFLICTS: u32 = 200_000;

/// The greatest number of conflicts that can be given.
pub const MAX_CONFLICTS: u32 = 1_000_000;

/// The greatest widening of skews that can be given, in the log's unit of time.
pub const MAX_WIDENING: u64 = 1_000_000_000_000_000_000;

/// The greatest number of an event that can be given; the events of a log count from 0.
pub const MAX_EVENT: u32 = 4_294_967_295;

/// The numbers that limit conflicts, widenings and events.
pub fn limits_are_numbers()
    ensures default { DEFAULT_CONFLICTS ≡ 200000 }
    ensures conflicts { MAX_CONFLICTS ≡ 1000000 }
    ensures widening { MAX_WIDENING ≡ 1000000000000000000 }
    ensures event { MAX_EVENT ≡ 4294967295 }
{}
