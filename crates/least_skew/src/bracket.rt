//! Between which widenings the least one with a value lies.

ghost use Rattle.std.specs.Prelude.{◌≡◌, ◌+◌, ◌<◌, ◌≤◌, ◌^◌, ℕ};
ghost use Rattle.skew_bounds.specs.Tight.{IsConsistent};
ghost use Rattle.best_answer.specs.declared.aim.Aim.{Aim};
ghost use Rattle.best_answer.specs.Aims.{Gives, RefuteWithin};
ghost use Rattle.least_skew.specs.Brackets.{IsBracket, IsRight};
ghost use Rattle.least_skew.specs.Least.{wide};

use crate::Tolerance;
use mt_model::Times;
use proof_log::Lines;

// So many searches come before the greatest widening is searched, if no timing was found, and from then on the middle is.
const FIRST_TURNS: u32 = 3;

/// The least widening with a value is from `low` on, and not above `high`.
#[derive(Drop)]
pub struct Bracket {
    /// The value is excluded below this widening,
    pub low: u64,
    /// as these lines show for the widening directly below it, if there is one.
    pub below: Option<Lines>,
    /// The least widening that is known to have the value, or else one more than the greatest one,
    pub high: u64,
    /// as this timing shows, if it is known.
    pub witness: Option<Times>,
    /// How many searches there were.
    pub turns: u32,
}

impl Bracket {
    /// Before any search, where this is the greatest widening.
    pub fn up_to(max: u64) -> Bracket
        requires { max < 2 ^ 63 }
        ensures bracket { (a : Aim) → IsBracket a max result }
    {
        Bracket {
            low: 0,
            below: None,
            high: max + 1,
            witness: None,
            turns: 0,
        }
    }

    /// The widening to be searched next: the lowest at first, since a timing there ends the search and lines there often
    /// refute with greater ones too, then once the greatest, if no timing is known, and then the middle.
    pub fn next(&self) -> u64
        requires { self.now.low < self.now.high }
        ensures from { self.now.low ≤ result }
        ensures below { result < self.now.high }
    {
        if self.turns < FIRST_TURNS {
            self.low
        } else if self.turns == FIRST_TURNS && self.witness.is_none() {
            self.high - 1
        } else {
            self.low + (self.high - self.low) / 2
        }
    }

    /// The bracket where these lines refute the value with a widening in it.
    pub fn above(self, s: u64, lines: Lines) -> Bracket
        requires { s < self.high }
        ensures low { result.low ≡ s + 1 }
        ensures high { result.high ≡ self.high }
        ensures bracket { (a : Aim) (max : ℕ) → IsBracket a max self → RefuteWithin a (wide s a.log.now) lines → IsBracket a max result }
    {
        let Bracket {
            low: _,
            below: _,
            high,
            witness,
            turns,
        } = self;
        Bracket {
            low: s + 1,
            below: Some(lines),
            high,
            witness,
            turns: turns.saturating_add(1),
        }
    }

    /// The bracket where this timing gives the value with a widening in it.
    pub fn down_to(self, s: u64, times: Times) -> Bracket
        requires low { self.low ≤ s }
        requires high { s < self.high }
        ensures low { result.low ≡ self.low }
        ensures high { result.high ≡ s }
        ensures bracket { (a : Aim) (max : ℕ) → IsBracket a max self → Gives a (wide s a.log.now) times → IsBracket a max result }
    {
        let Bracket {
            low,
            below,
            high: _,
            witness: _,
            turns,
        } = self;
        Bracket {
            low,
            below,
            high: s,
            witness: Some(times),
            turns: turns.saturating_add(1),
        }
    }

    /// The answer, once the ends meet.
    pub fn answer(self) -> Tolerance
        requires met { self.low ≡ self.high }
        requires bracket { (a : Aim) × (max : ℕ) × IsBracket a max self }
        ensures right { (a : Aim) (max : ℕ) → IsBracket a max self → IsConsistent (wide max a.log.now) → IsRight a max result }
    {
        let Bracket {
            low: _,
            below,
            high,
            witness,
            turns: _,
        } = self;
        match (witness, below) {
            (Some(times), below) => Tolerance::Least {
                s: high,
                times,
                below,
            },
            (None, Some(lines)) => Tolerance::Never { lines },
            (None, None) => unreachable!(),
        }
    }
}
