//! What holds of derivations and their texts, and of fresh lines.

ghost use Rattle.proof_log.specs.FreshLaws.{FreshLinesDiffer, RefutedByRulesIsNotSpent, SpentIsBounded};
ghost use Rattle.proof_log.specs.Laws.{BytesAreUnambiguous, StepsReadAlike, TextsReadBack, TextsTellApart};

/// Bytes are at most one list of lines, or have at most one first faulty line, and not both.
pub fn bytes_are_unambiguous()
    ensures { BytesAreUnambiguous }
{}

/// The text of lines that each have a spelling is that of these lines.
pub fn texts_read_back()
    ensures { TextsReadBack }
{}

/// Two lists of lines that each have a spelling are equal where their texts are.
pub fn texts_tell_apart()
    ensures { TextsTellApart }
{}

/// A step in a line reads as it does where it is displayed.
pub fn steps_read_alike()
    ensures { StepsReadAlike }
{}

/// A fresh line hasn't the literals of an earlier Learn line.
pub fn fresh_lines_differ()
    ensures { FreshLinesDiffer }
{}

/// Fewer conflicts are spent than three to the power of the number of atoms in the clauses of the Learn lines, and
/// fewer than three to the power of the number of those in clauses of rules.
pub fn spent_is_bounded()
    ensures { SpentIsBounded }
{}

/// Where unit propagation over the clauses of the rules alone reaches a false one, no line is fresh, and so no
/// conflict is spent.
pub fn refuted_by_rules_is_not_spent()
    ensures { RefutedByRulesIsNotSpent }
{}
