//! The limits of the files of formulas, logs and times, in one place.

ghost use Rattle.std.specs.Prelude.{◌≡◌};

/// The most bytes of a formula's file.
pub const FORMULA_LIMIT: usize = 65_536;

/// The most bytes of a log file.
pub const LOG_LIMIT: usize = 1_048_576;

/// The most bytes of a file of times.
pub const TIMES_LIMIT: usize = 65_536;

/// The numbers that limit these files.
pub fn limits_are_numbers()
    ensures formula { FORMULA_LIMIT ≡ 65536 }
    ensures log { LOG_LIMIT ≡ 1048576 }
    ensures times { TIMES_LIMIT ≡ 65536 }
{}
