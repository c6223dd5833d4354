//! The nearest row from a row on at which a side has a value, told for one row after the other in one pass.

ghost use Rattle.std.specs.Prelude.{◌≡◌, ◌<◌, ◌≤◌, ◌+◌, ◌-◌, ◌&&◌, length, All, IfSome, None, option_map};
ghost use Rattle.mt_model.specs.Log.{IsWithin};
ghost use Rattle.mt_model.specs.declared.limits.TheConstants.{MAX_TIME};
ghost use Rattle.witness_replay.specs.Directions.{is_far as is_far_from};
ghost use Rattle.witness_replay.specs.Sweeps.{AreFar, AreNear, IsSwept, is_far_before, is_hit};
ghost use Rattle.witness_replay.specs.Timelines.{IsTimeline, row_met};

use crate::operators::distance_from;
use crate::timeline::{Moment, Timeline, row_at};
use formula_arena::Direction;

/// What a side of an operator is searched for: a value at a least distance.
#[derive(Clone, Copy)]
pub struct Wanted {
    pub value: bool,
    pub low: u64,
}

/// The places from one on, in the order in which rows are met, and the first of them with a hit.
#[derive(Clone, Copy)]
pub struct Sweep {
    pub place: usize,
    pub hit: Option<usize>,
}

// Whether row m is at least so far from row e on.
fn is_far(direction: Direction, times: &[i128], low: u64, e: usize, m: usize) -> bool
    requires range { All (IsWithin MAX_TIME) times.now }
    requires e_in { e < length times.now }
    requires m_in { m < length times.now }
    ensures { result ≡ is_far_from direction times.now low e m }
{
    low as i128 <= distance_from(direction, times, e, m)
}

impl Sweep {
    /// None of so many places.
    pub fn new(places: usize) -> Sweep
        ensures place { result.place ≡ places }
        ensures none { result.hit ≡ None }
    {
        Sweep {
            place: places,
            hit: None,
        }
    }

    // One more place is taken in.
    fn extended(self, direction: Direction, moments: &[Moment], side: &[bool], value: bool) -> Sweep
        requires count { length side.now ≡ length moments.now }
        requires rows { All (λ m. m.row < length moments.now) moments.now }
        requires swept { IsSwept (is_hit direction moments.now value side.now) (length moments.now) self }
        requires more { 0 < self.place }
        ensures swept { IsSwept (is_hit direction moments.now value side.now) (length moments.now) result }
        ensures place { result.place + 1 ≡ self.place }
    {
        let place = self.place - 1;
        let holds = side[row_at(direction, moments, place)];
        Sweep {
            place,
            hit: if holds == value {
                Some(place)
            } else {
                self.hit
            },
        }
    }

    /// All places are taken in whose rows are at least so far from row e on, which those before are.
    pub fn advanced(
        self,
        direction: Direction,
        timeline: Timeline,
        side: &[bool],
        wanted: Wanted,
        e: usize,
    ) -> Sweep
        requires range { All (IsWithin MAX_TIME) timeline.times.now }
        requires timeline { IsTimeline timeline.times.now timeline.moments.now }
        requires count { length side.now ≡ length timeline.times.now }
        requires e_in { e < length timeline.times.now }
        requires swept { IsSwept (is_hit direction timeline.moments.now wanted.value side.now) (length timeline.times.now) self }
        requires far { AreFar direction timeline.times.now timeline.moments.now wanted.low e self.place }
        ensures swept { IsSwept (is_hit direction timeline.entry.moments.now wanted.value side.now) (length timeline.entry.times.now) result }
        ensures far { AreFar direction timeline.entry.times.now timeline.entry.moments.now wanted.low e result.place }
        ensures near { AreNear direction timeline.entry.times.now timeline.entry.moments.now wanted.low e result.place }
    {
        let mut sweep = self;
        while sweep.has_more(direction, timeline, wanted.low, e) {
            sweep = sweep.extended(direction, timeline.moments, side, wanted.value);
        }
        sweep
    }

    // Whether the next place is one whose row is far enough from row e on.
    fn has_more(self, direction: Direction, timeline: Timeline, low: u64, e: usize) -> bool
        requires range { All (IsWithin MAX_TIME) timeline.times.now }
        requires timeline { IsTimeline timeline.times.now timeline.moments.now }
        requires e_in { e < length timeline.times.now }
        requires within { self.place ≤ length timeline.times.now }
        ensures { result ≡ is_far_before direction timeline.entry low e self.place }
    {
        let Timeline { times, moments } = timeline;
        self.place > 0
            && is_far(
                direction,
                times,
                low,
                e,
                row_at(direction, moments, self.place - 1),
            )
    }

    /// The row at the first place with a hit.
    pub fn row(self, direction: Direction, moments: &[Moment]) -> Option<usize>
        requires { IfSome self.hit (λ h. h < length moments.now) }
        ensures { result ≡ option_map (row_met direction moments.now) self.hit }
    {
        match self.hit {
            Some(place) => Some(row_at(direction, moments, place)),
            None => None,
        }
    }
}
