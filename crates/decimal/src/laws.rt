//! What holds of the bytes of numbers: they are what is printed of these.

ghost use Rattle.decimal.specs.Laws.{NumbersAreDecimal, SignedNumbersAreDecimal};

/// Bytes write a number below a limit of at most 10^64 exactly where they are what is printed of it.
pub fn numbers_are_decimal()
    ensures decimal { NumbersAreDecimal }
{}

/// Bytes write a signed number up to a limit of at most 10^63 exactly where they are what is printed of it.
pub fn signed_numbers_are_decimal()
    ensures decimal { SignedNumbersAreDecimal }
{}
