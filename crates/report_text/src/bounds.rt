//! The bounds of a walk, handed out from their text one after another.

ghost use Rattle.report_text.specs.Parts.{ReadsFront};
ghost use Rattle.report_text.specs.ReportText.{bound_text};
ghost use Rattle.report_text.specs.Spelled.{IsSpelledBound};

use crate::front::next_bound;
use mt_model::Step;

/// The bound with which the text of some bounds begins, and the text of the others. None where it begins with no bound.
/// Takes no memory.
pub fn read_bound(bytes: &[u8]) -> Option<(Step, &[u8])>
    ensures bound { ReadsFront IsSpelledBound bound_text bytes.now result }
{
    next_bound(bytes)
}
