//! What grows with the skews, and what a right answer says.

ghost use Rattle.std.specs.Prelude.{◌≡◌};
ghost use Rattle.least_skew.specs.Laws.{RightTolerancesAreLeast, SkewsMayGrow, ValuesMayGrow};

use crate::MAX_WIDENING;
use mt_model::conflict_excludes_timings;
use proof_check::refuted_is_no_value;
use proof_log::{refuted_by_rules_is_not_spent, spent_is_bounded};

/// A timing that a log admits stays admissible when all skews grow.
pub fn skews_may_grow()
    ensures grow { SkewsMayGrow }
{}

/// A value that a formula can have it can have when all skews grow.
pub fn values_may_grow()
    ensures grow { ValuesMayGrow }
{}

/// What a right answer says of the values that the formula can have is so.
pub fn right_tolerances_are_least()
    ensures least { RightTolerancesAreLeast }
{
    refuted_is_no_value();
    spent_is_bounded();
    refuted_by_rules_is_not_spent();
    conflict_excludes_timings();
}

/// The number that limits widenings.
pub fn limit_is_a_number()
    ensures widening { MAX_WIDENING ≡ 1000000000000000000 }
{}
