//! The bounds of a log that times break.

ghost use Rattle.std.specs.Prelude.{◌≡◌, ◌+◌, ◌<◌, length, find, not, int_le, All, IfSome, IsNone, IsSome, ◌+ℤ◌, ◌-ℤ◌};
ghost use Rattle.std.specs.List.{list_any, range_with_len};
ghost use Rattle.mt_model.specs.Bounds.{IsBetweenRows, bounds_of, breaks, breaks_edge, first_broken as first_broken_of, is_too_far_ahead, meets, shift_of};
ghost use Rattle.mt_model.specs.Clocks.{readings_of};
ghost use Rattle.mt_model.specs.Log.{IsWithin};
ghost use Rattle.mt_model.specs.Timing.{Admissible};
ghost use Rattle.mt_model.specs.Walks.{node_time};
ghost use Rattle.mt_model.specs.declared.bound.Bound.TheVariants as bound;
ghost use Rattle.mt_model.specs.declared.limits.TheConstants.{MAX_ERROR, MAX_LOCAL, MAX_TIME};
ghost use Rattle.skew_bounds.specs.Edges.{edge_in};
ghost use Rattle.skew_bounds.specs.Readings.{HasError, error_together};

use crate::edges::edge_of;
use crate::rows::{local_at, row_reading};
use mt_model::{Bound, EventId, Log, Reading, log_is_valid, unbroken_is_admissible};
use neg_cycle::Edge;

// The time of a node: 0 of the zero moment, and node e + 1 has the time of row e.
fn time_at(times: &[i128], node: u32) -> i128
    requires range { All (IsWithin MAX_TIME) times.now }
    requires within { node < length times.now + 1 }
    ensures time { result ≡ node_time times.now node }
    ensures small { IsWithin MAX_TIME result }
{
    if node == 0 {
        0
    } else {
        times[node as usize - 1]
    }
}

fn difference(from: i128, to: i128) -> i128
    requires from_small { IsWithin MAX_TIME from }
    requires to_small { IsWithin MAX_TIME to }
    ensures { result ≡ from -ℤ to }
{
    from - to
}

// Whether times meet an edge.
fn is_met(times: &[i128], edge: Edge) -> bool
    requires range { All (IsWithin MAX_TIME) times.now }
    requires from { edge.from < length times.now + 1 }
    requires to { edge.to < length times.now + 1 }
    ensures { result ≡ meets times.now (edge_in edge) }
{
    difference(time_at(times, edge.from), time_at(times, edge.to)) <= edge.bound
}

// How far the true time of row e is ahead of its local time.
pub fn shift(log: &Log, times: &[i128], e: usize) -> i128
    requires row { e < length log.now.rows }
    requires range { All (IsWithin MAX_TIME) times.now }
    requires count { length times.now ≡ length log.now.rows }
    ensures shift { result ≡ shift_of log.now times.now e }
    ensures small { IsWithin (MAX_TIME +ℤ MAX_LOCAL) result }
{
    times[e] - local_at(log, e)
}

// The error that two readings have together, where they are of one clock.
fn shared_error(first: Option<Reading>, second: Option<Reading>) -> Option<i128>
    requires first { IfSome first HasError }
    requires second { IfSome second HasError }
    ensures error { result ≡ error_together first second }
    ensures small { IfSome result (IsWithin (MAX_ERROR +ℤ MAX_ERROR)) }
{
    let first = first?;
    let second = second?;
    if first.clock == second.clock {
        Some(first.error + second.error)
    } else {
        None
    }
}

// Whether a shift is ahead of another by more than this error.
fn exceeds(first: i128, second: i128, error: i128) -> bool
    requires first { IsWithin (MAX_TIME +ℤ MAX_LOCAL) first }
    requires second { IsWithin (MAX_TIME +ℤ MAX_LOCAL) second }
    ensures { result ≡ not (int_le (first -ℤ second) error) }
{
    !(first - second <= error)
}

// Whether rows e and f read one clock, and the shift of e is greater than that of f by more than both errors together.
fn is_too_far_ahead(
    log: &Log,
    readings: &[Option<Reading>],
    times: &[i128],
    e: usize,
    f: usize,
) -> bool
    requires first { e < length log.now.rows }
    requires second { f < length log.now.rows }
    requires readings { readings.now ≡ readings_of log.now }
    requires range { All (IsWithin MAX_TIME) times.now }
    requires count { length times.now ≡ length log.now.rows }
    ensures { result ≡ is_too_far_ahead log.now times.now e f }
{
    let first = row_reading(log, readings, e);
    let second = row_reading(log, readings, f);
    match shared_error(first, second) {
        Some(error) => exceeds(shift(log, times, e), shift(log, times, f), error),
        None => false,
    }
}

// Whether a row before row e reads its clock, and is ahead of it by more than both errors.
fn is_any_ahead(log: &Log, readings: &[Option<Reading>], times: &[i128], e: usize) -> bool
    requires row { e < length log.now.rows }
    requires readings { readings.now ≡ readings_of log.now }
    requires range { All (IsWithin MAX_TIME) times.now }
    requires count { length times.now ≡ length log.now.rows }
    ensures { result ≡ list_any (λ f. is_too_far_ahead log.now times.now f e) (range_with_len 0 e) }
{
    (0..e).any(|f| is_too_far_ahead(log, readings, times, f, e))
}

// Whether row e is ahead by more than both errors of a row before it that reads its clock.
fn is_ahead_of_any(log: &Log, readings: &[Option<Reading>], times: &[i128], e: usize) -> bool
    requires row { e < length log.now.rows }
    requires readings { readings.now ≡ readings_of log.now }
    requires range { All (IsWithin MAX_TIME) times.now }
    requires count { length times.now ≡ length log.now.rows }
    ensures { result ≡ list_any (λ f. is_too_far_ahead log.now times.now e f) (range_with_len 0 e) }
{
    (0..e).any(|f| is_too_far_ahead(log, readings, times, e, f))
}

fn is_under_broken(log: &Log, readings: &[Option<Reading>], times: &[i128], e: EventId) -> bool
    requires readings { readings.now ≡ readings_of log.now }
    requires range { All (IsWithin MAX_TIME) times.now }
    requires count { length times.now ≡ length log.now.rows }
    ensures { result ≡ breaks log.now times.now (bound.Under e) }
{
    let e = e.get() as usize;
    e < log.rows().len() && is_any_ahead(log, readings, times, e)
}

fn is_over_broken(log: &Log, readings: &[Option<Reading>], times: &[i128], e: EventId) -> bool
    requires readings { readings.now ≡ readings_of log.now }
    requires range { All (IsWithin MAX_TIME) times.now }
    requires count { length times.now ≡ length log.now.rows }
    ensures { result ≡ breaks log.now times.now (bound.Over e) }
{
    let e = e.get() as usize;
    e < log.rows().len() && is_ahead_of_any(log, readings, times, e)
}

// Whether times break a bound between rows or the zero moment.
fn is_edge_broken(log: &Log, bound: Bound, times: &[i128]) -> bool
    requires of_rows { IsBetweenRows bound }
    requires range { All (IsWithin MAX_TIME) times.now }
    requires count { length times.now ≡ length log.now.rows }
    ensures { result ≡ breaks_edge log.now times.now bound }
{
    match edge_of(log, bound) {
        Some(edge) => !is_met(times, edge),
        None => false,
    }
}

fn is_broken(log: &Log, readings: &[Option<Reading>], bound: Bound, times: &[i128]) -> bool
    requires readings { readings.now ≡ readings_of log.now }
    requires range { All (IsWithin MAX_TIME) times.now }
    requires count { length times.now ≡ length log.now.rows }
    ensures { result ≡ breaks log.now times.now bound }
{
    match bound {
        Bound::Under(e) => is_under_broken(log, readings, times, e),
        Bound::Over(e) => is_over_broken(log, readings, times, e),
        Bound::Low(_)
        | Bound::High(_)
        | Bound::Rise(_)
        | Bound::Message(_)
        | Bound::Late(_)
        | Bound::Extra(_) => is_edge_broken(log, bound, times),
    }
}

fn first_broken_among(
    log: &Log,
    readings: &[Option<Reading>],
    bounds: &[Bound],
    times: &[i128],
) -> Option<Bound>
    requires readings { readings.now ≡ readings_of log.now }
    requires range { All (IsWithin MAX_TIME) times.now }
    requires count { length times.now ≡ length log.now.rows }
    ensures { result ≡ find (breaks log.now times.now) bounds.now }
{
    bounds
        .iter()
        .copied()
        .find(|bound| is_broken(log, readings, *bound, times))
}

/// The first of a log's bounds, in their order, that times break, and None exactly where the log admits
/// them. The readings are those of the rows, as `readings_by_row` gives them, and the bounds those of
/// `bounds`; there is a time for each row, in the log's unit of time. Takes no memory.
pub fn first_broken(
    log: &Log,
    readings: &[Option<Reading>],
    bounds: &[Bound],
    times: &[i128],
) -> Option<Bound>
    requires readings { readings.now ≡ readings_of log.now }
    requires bounds { bounds.now ≡ bounds_of log.now }
    requires range { All (IsWithin MAX_TIME) times.now }
    requires count { length times.now ≡ length log.now.rows }
    ensures bound { result ≡ first_broken_of log.now times.now }
    ensures admissible { IsNone result → Admissible log.now times.now }
    ensures excluded { IsSome result → Admissible log.now times.now → ⊥ }
{
    unbroken_is_admissible();
    log_is_valid(log);
    first_broken_among(log, readings, bounds, times)
}
