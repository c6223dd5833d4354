//! Laws of reports: right ones are accepted, and what accepted ones claim is so.

ghost use Rattle.verdict.specs.Laws.{AcceptedReportsAreTrue, AuditsAreExact, RightReportsAreAccepted, RightReportsAreTrue, RightVerdictsAreExact, SpentConflictsAreBounded};

use mt_model::conflict_excludes_timings;
use proof_check::refuted_is_no_value;
use proof_log::{refuted_by_rules_is_not_spent, spent_is_bounded};

/// A report has one audit: it is accepted, or refused at one part and line.
pub fn audits_are_exact()
    ensures exact { AuditsAreExact }
{}

/// What a report claims is so where an audit accepts it, whoever wrote it.
pub fn accepted_reports_are_true()
    ensures claims { AcceptedReportsAreTrue }
{
    conflict_excludes_timings();
    refuted_is_no_value();
}

/// An audit accepts each report that is right.
pub fn right_reports_are_accepted()
    ensures accepted { RightReportsAreAccepted }
{}

/// What a right report claims is so. Its sections that aren't unknown are witnesses for exactly the values that the
/// formula can have.
pub fn right_reports_are_true()
    ensures claims { RightReportsAreTrue }
    ensures exact { RightVerdictsAreExact }
{
    accepted_reports_are_true();
    right_reports_are_accepted();
}

/// Where conflicts are spent on a value, they are fewer than three to the power of the number of atoms of the rules, and
/// unit propagation over the rules alone doesn't refute the value.
pub fn spent_conflicts_are_bounded()
    ensures bounded { SpentConflictsAreBounded }
{
    spent_is_bounded();
    refuted_by_rules_is_not_spent();
}
