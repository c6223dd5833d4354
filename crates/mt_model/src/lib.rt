//! Names, logs of several hosts, and formulas; and what they mean: the timings that a log admits, the closed walks of
//! bounds that exclude all of these, and the truth of a formula in a timing.
#![tactic(auto)]

mod bound;
mod causes;
mod formula;
mod ids;
mod laws;
mod limits;
mod log;
mod name;
mod reading;
mod resync;
mod spans;
mod step;
mod times;
mod tree;
mod validity;
mod widening;

pub use bound::{Bound, BoundList};
pub use causes::sends;
pub use formula::Formula;
pub use ids::{ClockId, EventId, HostId, NodeId, PropId};
pub use laws::{
    before_is_not_later, bounds_are_admissible, bounds_only_exclude, clocks_only_exclude,
    conflict_excludes_timings, cycles_exclude_timings, finer_clocks_exclude_more,
    limits_are_numbers, offsets_by_pairs, positions_are_times, previous_row_is_last, truth_by_rows,
    truth_is_the_table, unbroken_is_admissible, values_have_timings, version_one_is_kept,
    version_two_is_kept,
};
pub use limits::{
    MAX_CLOCKS, MAX_DELAY, MAX_DISTANCE, MAX_ERROR, MAX_EXTRA, MAX_EXTRAS, MAX_GAP, MAX_HEIGHT,
    MAX_HOSTS, MAX_LOCAL, MAX_NAME_LENGTH, MAX_ORDER, MAX_ROWS, MAX_SKEW, MAX_TIME,
    MAX_WRITTEN_EXTRAS, MAX_WRITTEN_SKEW, MIN_DELAY, TOO_MANY_PROPOSITIONS,
};
pub use log::{Act, Extra, ExtraList, Host, HostList, Log, Row, RowList, log_is_valid};
pub use name::Name;
pub use reading::{NameList, Reading, ReadingList, RowReadings};
pub use resync::{Resync, ResyncList};
pub use spans::{Span, SpanList};
pub use step::{Step, Steps};
pub use times::{Bits, Times, Walk};
pub use tree::{Interval, Tree};
