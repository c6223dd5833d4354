//! Lists of true times, of truth values and of events.

use crate::EventId;
use mt_list::ListOf;

/// A number per row, in the order of the rows: the true times of a timing.
pub type Times = ListOf<i128>;

/// Truth values in order.
pub type Bits = ListOf<bool>;

/// Events one after another.
pub type Walk = ListOf<EventId>;
