//! What holds of literals, and of clauses as more are added.

ghost use Rattle.clause_db.specs.Laws.{NegationIsOther, VariablesHaveValues, HeldHintsAreSound, AddedLeavesHeld};

/// A literal and its negation are the two literals of their variable.
pub fn negation_is_other()
    ensures law { NegationIsOther }
{}

/// Each choice of values of the variables makes exactly one of a literal and its negation true.
pub fn variables_have_values()
    ensures law { VariablesHaveValues }
{}

/// Values that meet all clauses meet a clause if hints refute the negations of its literals.
pub fn held_hints_are_sound()
    ensures law { HeldHintsAreSound }
{}

/// A reference means the same clause however many are added.
pub fn added_leaves_held()
    ensures law { AddedLeavesHeld }
{}
