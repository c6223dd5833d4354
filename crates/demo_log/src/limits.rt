//! The limit of seeds.

ghost use Rattle.std.specs.Prelude.{◌≡◌};

/// The greatest seed.
pub const MAX_SEED: u64 = 18_446_744_073_709_551_615;

/// The number that limits seeds.
pub fn limit_is_a_number()
    ensures seed { MAX_SEED ≡ 18446744073709551615 }
{}
