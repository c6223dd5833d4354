//! Until and since at a row, from the nearest rows at which their sides decide.
//!
//! The left side holds from a row on up to a witness exactly where the witness is not after the nearest row
//! from there on at which the left side fails, the gap. And where any row is a witness, the nearest one is that is
//! far enough and has the right side.

ghost use Rattle.std.specs.Prelude.{◌≡◌, ◌<◌, ◌-ℤ◌, true, length, All, IfSome};
ghost use Rattle.std.specs.Option.{option_map_or};
ghost use Rattle.mt_model.specs.Frame.{is_in};
ghost use Rattle.mt_model.specs.Log.{IsWithin};
ghost use Rattle.mt_model.specs.Timing.{time_of};
ghost use Rattle.mt_model.specs.declared.limits.TheConstants.{MAX_TIME};
ghost use Rattle.witness_replay.specs.Columns.{is_reached as is_reached_by};
ghost use Rattle.witness_replay.specs.Directions.{distance_from as distance_by, is_near as is_near_from, rows_from};

use formula_arena::Direction;
use mt_model::Interval;

/// An until, or a since where it looks behind.
#[derive(Clone, Copy)]
pub struct Operator {
    pub direction: Direction,
    pub interval: Interval,
}

fn lies_in(interval: &Interval, distance: i128) -> bool
    ensures { result ≡ is_in interval.now distance }
{
    interval.low as i128 <= distance && interval.high.is_none_or(|high| distance <= high as i128)
}

// How far row m is after row e.
fn distance(times: &[i128], e: usize, m: usize) -> i128
    requires range { All (IsWithin MAX_TIME) times.now }
    requires e_in { e < length times.now }
    requires m_in { m < length times.now }
    ensures { result ≡ time_of times.now m -ℤ time_of times.now e }
{
    times[m] - times[e]
}

/// How far row m is from row e on, the way that an operator looks.
pub fn distance_from(direction: Direction, times: &[i128], e: usize, m: usize) -> i128
    requires range { All (IsWithin MAX_TIME) times.now }
    requires e_in { e < length times.now }
    requires m_in { m < length times.now }
    ensures { result ≡ distance_by direction times.now e m }
{
    match direction {
        Direction::Ahead => distance(times, e, m),
        Direction::Behind => distance(times, m, e),
    }
}

fn is_near(operator: Operator, times: &[i128], e: usize, m: usize) -> bool
    requires range { All (IsWithin MAX_TIME) times.now }
    requires e_in { e < length times.now }
    requires m_in { m < length times.now }
    ensures { result ≡ is_near_from operator.direction times.now operator.interval e m }
{
    lies_in(
        &operator.interval,
        distance_from(operator.direction, times, e, m),
    )
}

// Whether row e is met at the latest together with row m.
fn is_not_after(direction: Direction, times: &[i128], e: usize, m: usize) -> bool
    requires e_in { e < length times.now }
    requires m_in { m < length times.now }
    ensures { result ≡ (rows_from direction times.now).not_after e m }
{
    match direction {
        Direction::Ahead => times[e] <= times[m],
        Direction::Behind => times[m] <= times[e],
    }
}

// Whether row m is not after the first gap, where there is one.
fn is_up_to_gap(direction: Direction, times: &[i128], gap: Option<usize>, m: usize) -> bool
    requires gap { IfSome gap (λ g. g < length times.now) }
    requires m_in { m < length times.now }
    ensures { result ≡ option_map_or (λ g. (rows_from direction times.now).not_after m g) gap true }
{
    gap.is_none_or(|g| is_not_after(direction, times, m, g))
}

/// Whether an until holds at row e, or a since where it looks behind. `witness` is the nearest row from there on that
/// is far enough and has the right side, and `gap` the nearest one at which the left side fails, each if there is one.
pub fn is_reached(
    operator: Operator,
    times: &[i128],
    witness: Option<usize>,
    gap: Option<usize>,
    e: usize,
) -> bool
    requires range { All (IsWithin MAX_TIME) times.now }
    requires witness { IfSome witness (λ w. w < length times.now) }
    requires gap { IfSome gap (λ g. g < length times.now) }
    requires e_in { e < length times.now }
    ensures { result ≡ is_reached_by operator.direction times.now operator.interval witness gap e }
{
    match witness {
        Some(w) => {
            is_near(operator, times, e, w) && is_up_to_gap(operator.direction, times, gap, w)
        }
        None => false,
    }
}
