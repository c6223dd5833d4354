//! Until and since as one.

ghost use Rattle.std.specs.Prelude.{◌≡◌, ◌^◌, pos, neg_ℤ, false};
ghost use Rattle.std.specs.Option.{option_map_or};
ghost use Rattle.mt_model.specs.Log.{IsWithin};
ghost use Rattle.axiom_rules.specs.Rules as written;

use crate::part::{Part, not_order, order};
use formula_arena::Direction;
use mt_model::{Interval, MAX_ORDER};

/// An until node, which looks ahead, or a since node, which looks behind.
#[derive(Clone, Copy)]
pub struct Reach {
    pub direction: Direction,
    pub interval: Interval,
    /// The nodes of its sides, by their numbers.
    pub left: u32,
    pub right: u32,
}

// The bound of what is said where a distance is at least a lower bound.
fn turned(low: u64) -> i128
    ensures bound { result ≡ neg_ℤ (pos low) }
    ensures range { IsWithin MAX_ORDER result }
    ensures near { IsWithin (pos (2 ^ 64)) result }
{
    -(low as i128)
}

impl Reach {
    // `t_e - t_f <= c`, where the node looks behind with e and f exchanged.
    fn order(&self, e: u32, f: u32, c: i128) -> Part
        requires { IsWithin MAX_ORDER c }
        ensures { result ≡ written.met_order self.now.direction e f c }
    {
        match self.direction {
            Direction::Ahead => order(e, f, c),
            Direction::Behind => order(f, e, c),
        }
    }

    // The negation of that.
    fn not_order(&self, e: u32, f: u32, c: i128) -> Part
        requires { IsWithin (pos (2 ^ 64)) c }
        ensures { result ≡ written.not_met_order self.now.direction e f c }
    {
        match self.direction {
            Direction::Ahead => not_order(e, f, c),
            Direction::Behind => not_order(f, e, c),
        }
    }

    /// Event e is not after event f, as the node looks.
    pub(crate) fn not_after(&self, e: u32, f: u32) -> Part
        ensures { result ≡ written.not_met_after self.now.direction e f }
    {
        self.order(e, f, 0)
    }

    /// Event e is after event f, as the node looks.
    pub(crate) fn after(&self, e: u32, f: u32) -> Part
        ensures { result ≡ written.met_after self.now.direction e f }
    {
        self.not_order(e, f, 0)
    }

    /// Event j is at least the lower bound from event i.
    pub(crate) fn is_from(&self, i: u32, j: u32) -> Part
        ensures { result ≡ written.is_from self.now.direction self.now.interval i j }
    {
        self.order(i, j, turned(self.interval.low))
    }

    /// Event j is less than the lower bound from event i.
    pub(crate) fn is_not_from(&self, i: u32, j: u32) -> Part
        ensures { result ≡ written.is_not_from self.now.direction self.now.interval i j }
    {
        self.not_order(i, j, turned(self.interval.low))
    }

    /// Event j is at most an upper bound from event i.
    pub(crate) fn is_up_to(&self, high: u64, i: u32, j: u32) -> Part
        ensures { result ≡ written.is_up_to self.now.direction high i j }
    {
        self.order(j, i, high as i128)
    }

    /// Event j is more than the upper bound from event i, where there is one.
    pub(crate) fn is_not_up_to(&self, i: u32, j: u32) -> Part
        ensures { result ≡ option_map_or (λ b. written.is_not_up_to self.now.direction b i j) self.now.interval.high (Part.Known false) }
    {
        match self.interval.high {
            Some(high) => self.not_order(j, i, high as i128),
            None => Part::Known(false),
        }
    }
}
