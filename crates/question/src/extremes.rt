//! How far apart two events of a log can be, by the least and the greatest differences of its events.

ghost use Rattle.std.specs.Prelude.{◌≡◌, pos, ◌+ℤ◌};
ghost use Rattle.mt_model.specs.Log.{IsWithin};
ghost use Rattle.mt_model.specs.declared.limits.TheConstants.{MAX_TIME};
ghost use Rattle.question.specs.Extremes as extremes;

use formula_arena::Direction;
use mt_model::EventId;
use skew_bounds::Tight;

/// The greatest `t_f - t_e` over all timings that the log admits, in its unit of time, and 0 where there is no such event.
pub fn greatest_between(tight: &Tight, e: u32, f: u32) -> i128
    ensures greatest { result ≡ (extremes.extremes_of tight.now).greatest e f }
    ensures small { IsWithin (MAX_TIME +ℤ MAX_TIME) result }
{
    let events = tight.events();
    if (e as usize) < events && (f as usize) < events {
        tight.greatest(EventId::new(e), EventId::new(f))
    } else {
        0
    }
}

/// The least `t_f - t_e` over all timings that the log admits, in its unit of time, and 0 where there is no such event.
pub fn least_between(tight: &Tight, e: u32, f: u32) -> i128
    ensures least { result ≡ (extremes.extremes_of tight.now).least e f }
    ensures small { IsWithin (MAX_TIME +ℤ MAX_TIME) result }
{
    let events = tight.events();
    if (e as usize) < events && (f as usize) < events {
        tight.least(EventId::new(e), EventId::new(f))
    } else {
        0
    }
}

/// How far event j is from event i at most, as a node looks, and 0 where there is no such event.
pub fn farthest(tight: &Tight, direction: Direction, i: u32, j: u32) -> i128
    ensures farthest { result ≡ extremes.farthest (extremes.extremes_of tight.now) direction i j }
{
    // What is asked looking behind is what is told looking ahead, negated: so what is asked of one event and each other one
    // stands side by side in memory.
    match direction {
        Direction::Ahead => greatest_between(tight, i, j),
        Direction::Behind => -least_between(tight, i, j),
    }
}

/// How far event j is from event i at least, as a node looks, and 0 where there is no such event.
pub fn nearest(tight: &Tight, direction: Direction, i: u32, j: u32) -> i128
    ensures nearest { result ≡ extremes.nearest (extremes.extremes_of tight.now) direction i j }
{
    match direction {
        Direction::Ahead => least_between(tight, i, j),
        Direction::Behind => -greatest_between(tight, i, j),
    }
}
