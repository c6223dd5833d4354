//! What holds of refutations by hints, whatever the literals are.

ghost use Rattle.hint_refutation.specs.Laws.{RefutedAssumptionsFail, HintsAreSound, RefutersGive, GivenIsDetermined, AssumedIsSet, StepsAreForced, AssumedMayGrow, ClosedHasReached, WholeReachedIsClosed, ClosedIsNotRefuted, SettledIsClosed, ClosedByClauses};
ghost use Rattle.hint_refutation.specs.Maps.{WordsAreCarried};
ghost use Rattle.hint_refutation.specs.Worked.{WorkedCases};

/// Where each hint is met, what the hints refute doesn't all hold.
pub fn refuted_assumptions_fail<L>()
    ensures law { RefutedAssumptionsFail L }
{}

/// Where each hint is met, so is a clause if the hints refute the negations of its literals.
pub fn hints_are_sound<L>()
    ensures law { HintsAreSound L }
{}

/// Hints refute exactly where some list of literals is what all of them but the last give.
pub fn refuters_give<L>()
    ensures law { RefutersGive L }
{}

/// What hints give is determined: one literal for each hint but the last.
pub fn given_is_determined<L>()
    ensures law { GivenIsDetermined L }
{}

/// It doesn't count in which order literals are assumed, nor how often.
pub fn assumed_is_set<L>()
    ensures law { AssumedIsSet L }
{}

/// What the first hint is forces the step: after one that gives a literal the others have to refute with
/// it, after a false one there may be none, and after any other hints never refute.
pub fn steps_are_forced<L>()
    ensures law { StepsAreForced L }
{}

/// Hints that refute do so under more assumptions, if these leave undecided what the hints give.
pub fn assumed_may_grow<L>()
    ensures law { AssumedMayGrow L }
{}

/// Unit propagation doesn't leave a closed set, so it doesn't reach what is missed.
pub fn closed_has_reached<L>()
    ensures law { ClosedHasReached L }
{}

/// Where unit propagation has made no clause false and reaches nothing more, what it has is closed.
pub fn whole_reached_is_closed<L>()
    ensures law { WholeReachedIsClosed L }
{}

/// Hints from clauses refute no literals that a closed set has.
pub fn closed_is_not_refuted<L>()
    ensures law { ClosedIsNotRefuted L }
{}

/// A consistent set is closed if under it each clause has a true literal or two that aren't false.
pub fn settled_is_closed<L>()
    ensures law { SettledIsClosed L }
{}

/// What is closed or missed over clauses is so over some of them alone, and what is closed over
/// some and over others is so over all.
pub fn closed_by_clauses<L>()
    ensures law { ClosedByClauses L }
{}

/// A map that keeps literals apart and takes negations to negations carries refutation, use and closed
/// sets to what it takes the literals to, and back; and what is missed to there.
pub fn words_are_carried<L, M>()
    ensures law { WordsAreCarried L M }
{}

/// Small cases, worked by hand, of hints that refute and of others that don't.
pub fn worked_cases()
    ensures law { WorkedCases }
{}
