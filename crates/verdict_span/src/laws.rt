//! What an extra bound changes, and what a right answer says.

ghost use Rattle.verdict_span.specs.Laws.{ExtrasKeepTruth, ExtrasOnlyExclude, RightSpansAreGreatest};

use mt_model::conflict_excludes_timings;
use proof_check::refuted_is_no_value;
use proof_log::{refuted_by_rules_is_not_spent, spent_is_bounded};

/// An extra bound only takes timings away: those that don't meet it.
pub fn extras_only_exclude()
    ensures exclude { ExtrasOnlyExclude }
{}

/// What a formula's truth is in a timing doesn't change with an extra bound.
pub fn extras_keep_truth()
    ensures keep { ExtrasKeepTruth }
{}

/// What a right answer says of the timings that give the formula the value is so.
pub fn right_spans_are_greatest()
    ensures greatest { RightSpansAreGreatest }
{
    refuted_is_no_value();
    spent_is_bounded();
    refuted_by_rules_is_not_spent();
    conflict_excludes_timings();
}
