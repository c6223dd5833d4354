//! How far bounds of a log can grow with the walks of a derivation staying negative.

ghost use Rattle.std.specs.Prelude.{◌≡◌, ◌≤◌, ◌≤ℤ◌, pos};
ghost use Rattle.skew_bounds.specs.RowEdges.{IsEdgeTableOf};

use crate::slack::walk_slack;
use mt_model::{Log, Step};
use proof_log::Line;
use skew_bounds::EdgeTable;
use std::alloc::Global;

/// Which bounds of a log grow, all by the same amount.
#[derive(Clone, Copy)]
pub enum Growing {
    /// The bounds Low and High of each row, as they do where all skews grow.
    Skews,
    /// The extra bound of this number.
    Extra(u32),
}

/// The number, or 0 where it is below 0, or `most` where it is above.
pub fn clamped(number: i128, most: u128) -> u128
    ensures at_most { result ≤ most }
    ensures low { number ≤ℤ pos 0 → result ≡ 0 }
    ensures same { pos 0 ≤ℤ number → number ≤ℤ pos most → pos result ≡ number }
    ensures above { pos most ≤ℤ number → result ≡ most }
{
    if number <= 0 {
        0
    } else {
        (number as u128).min(most)
    }
}

impl Growing {
    // Whether the bound of a step grows.
    fn has(self, step: Step) -> bool {
        match self {
            Growing::Skews => matches!(step, Step::Low(_) | Step::High(_)),
            Growing::Extra(extra) => step == Step::Extra(extra),
        }
    }

    // How many steps of a walk grow.
    fn steps_of(self, steps: &[Step]) -> i128 {
        let mut growing: i128 = 0;
        for step in steps {
            if self.has(*step) {
                growing = growing.saturating_add(1);
            }
        }
        growing
    }

    // By how much the bounds can grow with the sum of a walk below 0, in a log whose edges these are.
    fn walk_room(self, log: &Log, table: &EdgeTable, steps: &[Step]) -> i128
        requires { IsEdgeTableOf log.now table.now }
    {
        match walk_slack(log, table, steps).checked_div(self.steps_of(steps)) {
            Some(room) => room,
            None => i128::MAX,
        }
    }

    // The same of all walks of a derivation, up to `most`.
    fn room_by(self, log: &Log, table: &EdgeTable, lines: &[Line], most: u128) -> u128
        requires { IsEdgeTableOf log.now table.now }
        ensures at_most { result ≤ most }
    {
        let mut room = most;
        for line in lines {
            if let Line::Cycle(steps) = line {
                room = clamped(self.walk_room(log, table, steps.as_slice()), room);
            }
        }
        room
    }

    /// By how much, up to `most`, the bounds can grow with the sums of all walks of a derivation below 0. No clause says
    /// that they can: it is a guess, 0 for want of memory, and the derivation is judged anew by whoever follows it.
    pub fn room(self, alloc: Global, log: &Log, lines: &[Line], most: u128) -> u128
        ensures at_most { result ≤ most }
    {
        match EdgeTable::of(alloc, log) {
            Ok(table) => self.room_by(log, &table, lines, most),
            Err(_) => 0,
        }
    }
}
