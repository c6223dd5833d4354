//! Up to where the greatest distance with the value may lie.

ghost use Rattle.std.specs.Prelude.{◌≡◌, ◌<◌, ◌≤◌, pos, ◌+ℤ◌, ◌≤ℤ◌};
ghost use Rattle.mt_model.specs.Log.{IsWithin};
ghost use Rattle.mt_model.specs.declared.limits.TheConstants.{MAX_TIME};
ghost use Rattle.skew_bounds.specs.Tight.{difference};
ghost use Rattle.best_answer.specs.Aims.{Gives, RefuteWithin};
ghost use Rattle.verdict_span.specs.Climbs.{IsClimb};
ghost use Rattle.verdict_span.specs.Spans.{IsRight, distant};
ghost use Rattle.verdict_span.specs.declared.span.Span.{Span};

use crate::Widest;
use mt_model::Times;
use proof_log::Lines;

// So many searches are at the greatest distance that is left, and from then on they are in the middle.
const FIRST_TURNS: u32 = 3;

/// The greatest distance with a value is from `distance` on, and not above it by more than `room`.
#[derive(Drop)]
pub struct Climb {
    /// The greatest distance that is known to have the value,
    pub distance: i128,
    /// as this timing shows.
    pub times: Times,
    /// By how much a distance with the value can be above it,
    pub room: u128,
    /// as these lines show for the one directly beyond.
    pub beyond: Lines,
    /// How many searches there were.
    pub turns: u32,
}

impl Climb {
    /// How far above the distance is searched next: as far as there is room at first, since a timing there ends the climb
    /// and lines there often refute far below, and then half as far.
    pub fn next(&self) -> u128
        requires { 0 < self.now.room }
        ensures from { 1 ≤ result }
        ensures to { result ≤ self.now.room }
    {
        if self.turns < FIRST_TURNS {
            self.room
        } else {
            self.room - self.room / 2
        }
    }

    /// The climb where this timing gives the value with a greater distance.
    pub fn up_to(self, times: Times, distance: i128) -> Climb
        requires from { (self.distance +ℤ pos 1) ≤ℤ distance }
        requires to { distance ≤ℤ (self.distance +ℤ pos self.room) }
        requires near { IsWithin (MAX_TIME +ℤ MAX_TIME) self.distance }
        requires top { (self.distance +ℤ pos self.room) ≤ℤ (MAX_TIME +ℤ MAX_TIME) }
        ensures room { result.room < self.room }
        ensures climb { (s : Span) → IsClimb s self → Gives s.aim s.aim.log.now times → difference times s.e s.to ≡ distance → IsClimb s result }
    {
        let Climb {
            distance: low,
            times: _,
            room,
            beyond,
            turns,
        } = self;
        Climb {
            distance,
            times,
            room: room - gap(low, distance),
            beyond,
            turns: turns.saturating_add(1),
        }
    }

    /// The climb where these lines refute the value with a greater distance.
    pub fn down_to(self, c: i128, lines: Lines) -> Climb
        requires from { (self.distance +ℤ pos 1) ≤ℤ c }
        requires to { c ≤ℤ (self.distance +ℤ pos self.room) }
        requires near { IsWithin (MAX_TIME +ℤ MAX_TIME) self.distance }
        requires top { (self.distance +ℤ pos self.room) ≤ℤ (MAX_TIME +ℤ MAX_TIME) }
        ensures room { result.room < self.room }
        ensures climb { (s : Span) → IsClimb s self → RefuteWithin s.aim (distant s c) lines → IsClimb s result }
    {
        let Climb {
            distance,
            times,
            room: _,
            beyond: _,
            turns,
        } = self;
        Climb {
            distance,
            times,
            room: gap(distance, c) - 1,
            beyond: lines,
            turns: turns.saturating_add(1),
        }
    }

    /// The answer, once there is no room.
    pub fn answer(self) -> Widest
        requires { self.room ≡ 0 }
        ensures right { (s : Span) → IsClimb s self → IsRight s result }
    {
        let Climb {
            distance,
            times,
            room: _,
            beyond,
            turns: _,
        } = self;
        Widest::Greatest {
            d: distance,
            times,
            beyond,
        }
    }
}

/// By how much one number is above another.
pub fn gap(low: i128, high: i128) -> u128
    requires order { low ≤ℤ high }
    requires low { IsWithin (MAX_TIME +ℤ MAX_TIME) low }
    requires high { IsWithin (MAX_TIME +ℤ MAX_TIME) high }
    ensures gap { (low +ℤ pos result) ≡ high }
{
    (high - low) as u128
}
