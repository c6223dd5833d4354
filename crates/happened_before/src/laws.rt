//! What holds of vector clocks.

ghost use Rattle.happened_before.specs.Laws.{ClocksTellOrder};

use mt_model::previous_row_is_last;

/// Two clocks tell whether one event is the other or happens before it, by their numbers at the host
/// of the one (Fidge 1988, Mattern 1989).
pub fn clocks_tell_order()
    ensures law { ClocksTellOrder }
{
    previous_row_is_last();
}
