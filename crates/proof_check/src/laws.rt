//! What right lines hold, and what lines that refute exclude.

ghost use Rattle.proof_check.specs.Laws.{RefutedIsNoValue, RightLinesHold};

use axiom_rules::rules_hold;
use hint_refutation::hints_are_sound;

/// Where the lines up to one are all right, its clause holds in each timing that the log admits and that gives the
/// formula the value.
pub fn right_lines_hold()
    ensures { RightLinesHold }
{
    rules_hold();
    hints_are_sound::<axiom_rules::Literal>();
}

/// A formula has no value that lines refute.
pub fn refuted_is_no_value()
    ensures { RefutedIsNoValue }
{
    right_lines_hold();
}
