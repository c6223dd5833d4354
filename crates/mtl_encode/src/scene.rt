//! What is known of a question while its instances are asked for.

use crate::known::Known;
use crate::needless::{is_never_from, is_never_up_to};
use crate::windows::{Placed, Windows, passing};
use axiom_rules::{ChangeRow, Literal, Reach, Rules};
use formula_arena::{Arena, Direction};
use question::{farthest, greatest_between, least_between, nearest};
use skew_bounds::Tight;
use std::ops::Range;

/// The rules, the nodes, how far apart events are, the rows by their times, and what is known of each node.
#[derive(Clone, Copy)]
pub struct Scene<'a> {
    pub rules: &'a Rules,
    pub arena: &'a Arena,
    pub tight: &'a Tight,
    pub windows: &'a Windows,
    pub known: &'a Known,
}

// A place as an argument of a rule.
fn narrow(place: usize) -> u32 {
    u32::try_from(place).unwrap_or(u32::MAX)
}

// The row of the change at a place.
fn row_of_change(changes: &[ChangeRow], at: usize) -> Option<u32> {
    match changes.get(at) {
        Some(change) => Some(change.row()),
        None => None,
    }
}

// The row of the pulse at a place.
fn row_of_pulse(pulses: &[u32], at: usize) -> Option<u32> {
    pulses.get(at).copied()
}

/// Whether the change at a place sets the proposition.
pub fn sets_at(changes: &[ChangeRow], at: u32) -> Option<bool> {
    match changes.get(at as usize) {
        Some(change) => Some(change.sets()),
        None => None,
    }
}

impl<'a> Scene<'a> {
    /// Whether a literal of a clause, but for its head, is true in every timing.
    pub fn is_met(self, clause: &[Literal], head: Literal) -> bool {
        for literal in clause {
            if *literal != head && self.literal_value(*literal) == Some(true) {
                return true;
            }
        }
        false
    }

    /// The least time from the log's first row to an event.
    pub fn least(self, e: u32) -> i128 {
        least_between(self.tight, 0, e)
    }

    /// The greatest one.
    pub fn greatest(self, e: u32) -> i128 {
        greatest_between(self.tight, 0, e)
    }

    /// The rows that can be at a distance in the interval, and some more.
    pub fn reached(self, u: &Reach, i: u32) -> &'a [Placed] {
        let low = u.interval.low as i128;
        let (least, greatest) = (self.least(i), self.greatest(i));
        match u.direction {
            Direction::Ahead => {
                let to = match u.interval.high {
                    Some(high) => greatest.saturating_add(high as i128),
                    None => i128::MAX,
                };
                self.windows.between(least.saturating_add(low), to)
            }
            Direction::Behind => {
                let from = match u.interval.high {
                    Some(high) => least.saturating_sub(high as i128),
                    None => i128::MIN,
                };
                self.windows.between(from, greatest.saturating_sub(low))
            }
        }
    }

    /// The rows that can be between two events, and some more.
    pub fn between(self, u: &Reach, i: u32, j: u32) -> &'a [Placed] {
        match u.direction {
            Direction::Ahead => self.windows.between(self.least(i), self.greatest(j)),
            Direction::Behind => self.windows.between(self.least(j), self.greatest(i)),
        }
    }

    /// Whether event j is always nearer to event i than the interval.
    pub fn is_too_near(self, u: &Reach, i: u32, j: u32) -> bool {
        is_never_from(u, farthest(self.tight, u.direction, i, j))
    }

    /// Whether it always is further.
    pub fn is_too_far(self, u: &Reach, i: u32, j: u32) -> bool {
        is_never_up_to(u, nearest(self.tight, u.direction, i, j))
    }

    // Whether a row is never after an event.
    fn is_never_after(self, row: Option<u32>, e: u32) -> bool {
        match row {
            Some(row) => greatest_between(self.tight, e, row) <= 0,
            None => false,
        }
    }

    // Whether it is always before it.
    fn is_always_before(self, row: Option<u32>, e: u32) -> bool {
        match row {
            Some(row) => greatest_between(self.tight, e, row) < 0,
            None => false,
        }
    }

    // Whether it can be before it or at its instant.
    fn may_be_up_to(self, row: Option<u32>, e: u32) -> bool {
        match row {
            Some(row) => least_between(self.tight, e, row) <= 0,
            None => false,
        }
    }

    /// The places of the changes that an event can follow, before the next one.
    pub fn places(self, changes: &[ChangeRow], e: u32) -> Range<u32> {
        let count = changes.len();
        let start = passing(
            count,
            |at| self.is_never_after(row_of_change(changes, at.saturating_add(1)), e),
        );
        let end = passing(count, |at| self.may_be_up_to(row_of_change(changes, at), e));
        narrow(start)..narrow(end)
    }

    /// The places of the pulses at whose instant an event can be.
    pub fn pulses(self, pulses: &[u32], e: u32) -> Range<u32> {
        let count = pulses.len();
        let start = passing(
            count,
            |at| self.is_always_before(row_of_pulse(pulses, at), e),
        );
        let end = passing(count, |at| self.may_be_up_to(row_of_pulse(pulses, at), e));
        narrow(start)..narrow(end)
    }
}
