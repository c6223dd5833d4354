//! What the answers of the two commands say.

ghost use Rattle.skew_best.specs.BestLaws.{TolerancesAreAsked, TolerancesAreBest};
ghost use Rattle.skew_best.specs.SpanLaws.{SpansAreAsked, SpansAreBest};

use mtl_parse::texts_are_unambiguous;

/// What `tolerance` answers of a formula and a log within the limits: the least widening of all skews with which the formula
/// can have the value, that there is none up to the greatest one, that no timing is admissible with that one, or that a
/// search spent its conflicts. It answers such a status of no others.
pub fn tolerances_are_best()
    ensures best { TolerancesAreBest }
    ensures asked { TolerancesAreAsked }
{
    texts_are_unambiguous();
}

/// What `span` answers of a formula and a log within the limits: the greatest distance of two events in the timings that give
/// the formula the value, that no timing gives it, that no timing is admissible, or that a search spent its conflicts. It
/// answers such a status of no others.
pub fn spans_are_best()
    ensures best { SpansAreBest }
    ensures asked { SpansAreAsked }
{
    texts_are_unambiguous();
}
