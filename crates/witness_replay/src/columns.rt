//! Truth values for each row, in the order of the rows, from those of an operator's sides.

ghost use Rattle.std.specs.Prelude.{◌≡◌, ◌&&◌, not, length, All};
ghost use Rattle.mt_model.specs.Log.{IsWithin};
ghost use Rattle.mt_model.specs.State.{state_named};
ghost use Rattle.mt_model.specs.Timing.{time_of};
ghost use Rattle.mt_model.specs.declared.limits.TheConstants.{MAX_TIME};
ghost use Rattle.witness_replay.specs.Columns.{AreStates, IsColumn, reaches_by, value_at};
ghost use Rattle.witness_replay.specs.Timelines.{IsTimeline};

use crate::operators::{Operator, is_reached};
use crate::states::{Latest, Proposition};
use crate::sweep::{Sweep, Wanted};
use crate::timeline::{Timeline, row_at};
use mt_model::{Log, Name};

/// The same value at each row.
pub fn fill(column: &mut [bool], value: bool)
    ensures { IsColumn (length column.old) (λ e. value) column.new }
{
    for e in 0..column.len() {
        column[e] = value;
    }
}

fn fill_states_of(log: &Log, timeline: Timeline, proposition: Proposition, column: &mut [bool])
    requires count { length timeline.times.now ≡ length log.now.rows }
    requires timeline { IsTimeline timeline.times.now timeline.moments.now }
    requires room { length column.old ≡ length timeline.times.now }
    ensures { AreStates log.now timeline.entry.times.now proposition.entry.host proposition.entry.name.now column.new }
{
    let Timeline { times, moments } = timeline;
    let mut latest = Latest::new();
    for place in 0..times.len() {
        latest = latest.advanced(log, moments, proposition, place);
        column[moments[place].row] = latest.state(moments, place);
    }
}

/// The state of a proposition at each row.
pub fn fill_states(log: &Log, timeline: Timeline, host: &Name, name: &Name, column: &mut [bool])
    requires count { length timeline.times.now ≡ length log.now.rows }
    requires timeline { IsTimeline timeline.times.now timeline.moments.now }
    requires room { length column.old ≡ length timeline.times.now }
    ensures { let t = timeline.entry.times.now in
        IsColumn (length t) (λ e. state_named log.now t (time_of t e) host.now name.now) column.new }
{
    match log.host_named(host) {
        Some(host) => fill_states_of(log, timeline, Proposition { host, name }, column),
        None => fill(column, false),
    }
}

/// Where the side doesn't hold.
pub fn fill_negation(side: &[bool], column: &mut [bool])
    requires room { length column.old ≡ length side.now }
    ensures { IsColumn (length side.now) (λ e. not (value_at side.now e)) column.new }
{
    for e in 0..side.len() {
        column[e] = !side[e];
    }
}

/// Where both sides hold.
pub fn fill_conjunction(left: &[bool], right: &[bool], column: &mut [bool])
    requires right_count { length right.now ≡ length left.now }
    requires room { length column.old ≡ length left.now }
    ensures { IsColumn (length left.now) (λ e. value_at left.now e && value_at right.now e) column.new }
{
    for e in 0..left.len() {
        column[e] = left[e] && right[e];
    }
}

/// Where an until holds, or a since where it looks behind. The rows are gone through from the one that is met last:
/// what is far enough from one of them is so from each that is met before it.
pub fn fill_reaches(
    operator: Operator,
    timeline: Timeline,
    left: &[bool],
    right: &[bool],
    column: &mut [bool],
)
    requires range { All (IsWithin MAX_TIME) timeline.times.now }
    requires timeline { IsTimeline timeline.times.now timeline.moments.now }
    requires left_count { length left.now ≡ length timeline.times.now }
    requires right_count { length right.now ≡ length timeline.times.now }
    requires room { length column.old ≡ length timeline.times.now }
    ensures { let t = timeline.entry.times.now in
        IsColumn (length t) (reaches_by operator t left.now right.now) column.new }
{
    let Operator {
        direction,
        interval,
    } = operator;
    let Timeline { times, moments } = timeline;
    let failing = Wanted {
        value: false,
        low: 0,
    };
    let holding = Wanted {
        value: true,
        low: interval.low,
    };
    let mut gaps = Sweep::new(times.len());
    let mut witnesses = Sweep::new(times.len());
    for place in (0..times.len()).rev() {
        let e = row_at(direction, moments, place);
        gaps = gaps.advanced(direction, timeline, left, failing, e);
        witnesses = witnesses.advanced(direction, timeline, right, holding, e);
        let witness = witnesses.row(direction, moments);
        let gap = gaps.row(direction, moments);
        column[e] = is_reached(operator, times, witness, gap, e);
    }
}
