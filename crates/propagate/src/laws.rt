//! What holds of trails, clauses, links and graphs that are in step.

ghost use Rattle.propagate.specs.Laws.{AddedClauseKeepsStep, NewTrailIsInStep, RoomForAllIsRoom, SetLinksAreLinked, StepHoldsMarks};

/// A new trail is in step with any clauses and links that fit, and a graph that holds the base.
pub fn new_trail_is_in_step()
    ensures law { NewTrailIsInStep }
{}

/// What is in step stays so where a clause over the trail's variables is added.
pub fn added_clause_keeps_step()
    ensures law { AddedClauseKeepsStep }
{}

/// The marks of a trail that is in step are within the edges that the graph holds, as `back_to`
/// asks.
pub fn step_holds_marks()
    ensures law { StepHoldsMarks }
{}

/// A graph with room for the base and one edge of each variable has room for all of a trail in step
/// with it.
pub fn room_for_all_is_room()
    ensures law { RoomForAllIsRoom }
{}

/// Links whose edges were all set within a graph's conditions fit a trail over as many variables, or
/// more.
pub fn set_links_are_linked()
    ensures law { SetLinksAreLinked }
{}
