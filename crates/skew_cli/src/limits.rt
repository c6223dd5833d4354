//! The limits of what the program takes, in one place.

ghost use Rattle.std.specs.Prelude.{◌≡◌};
ghost use Rattle.demo_log.specs.declared.limits.TheConstants.{MAX_SEED};
ghost use Rattle.question.specs.declared.size.TheConstants.{MAX_SIZE};
ghost use Rattle.skew_commands.specs.declared.limits.TheConstants.{FORMULA_LIMIT, LOG_LIMIT, TIMES_LIMIT};
ghost use Rattle.skew_words.specs.declared.limits.TheConstants.{DEFAULT_CONFLICTS, MAX_CONFLICTS};

/// The most bytes of a report file.
pub const REPORT_LIMIT: usize = 1_073_741_824;

/// The most bytes of a JSON file.
pub const JSON_LIMIT: usize = 4_194_304;

/// The numbers that limit files, conflicts, seeds, and the size of a problem.
pub fn limits_are_numbers()
    ensures formula { FORMULA_LIMIT ≡ 65536 }
    ensures log { LOG_LIMIT ≡ 1048576 }
    ensures times { TIMES_LIMIT ≡ 65536 }
    ensures report { REPORT_LIMIT ≡ 1073741824 }
    ensures json { JSON_LIMIT ≡ 4194304 }
    ensures default { DEFAULT_CONFLICTS ≡ 200000 }
    ensures conflicts { MAX_CONFLICTS ≡ 1000000 }
    ensures seed { MAX_SEED ≡ 18446744073709551615 }
    ensures size { MAX_SIZE ≡ 4194304 }
{}
