//! The rows of a log by how early they can be.

ghost use Rattle.std.specs.Prelude.{◌≤◌};

use question::{greatest_between, least_between};
use skew_bounds::Tight;
use std::alloc::{AllocError, Global};

/// A row, with the least time from the log's first row to it.
#[derive(Clone, Copy, PartialEq, Eq, PartialOrd, Ord)]
pub struct Placed {
    pub least: i128,
    pub row: u32,
}

/// All rows in the order of their least times, which count from the log's first row.
#[derive(Drop)]
pub struct Windows {
    placed: Vec<Placed>,
    // No row's greatest time is further than this from its least.
    spread: i128,
    // A row whose greatest time is as small as any.
    earliest: u32,
}

/// The first number below a length at which a test fails, where it fails from there on; the length where it fails
/// at none.
pub fn passing<F: Fn(usize) -> bool>(len: usize, test: F) -> usize
    requires { F.IsAlwaysCallable test }
    ensures within { result ≤ len }
{
    let mut low = 0;
    let mut high = len;
    while low < high {
        let middle = low + (high - low) / 2;
        if test(middle) {
            low = middle + 1;
        } else {
            high = middle;
        }
    }
    low
}

// The least time at a place, or the greatest number where there is no such place.
fn least_at(placed: &[Placed], at: usize) -> i128 {
    match placed.get(at) {
        Some(row) => row.least,
        None => i128::MAX,
    }
}

impl Windows {
    /// So many rows of a log whose events are so far apart.
    pub fn new(alloc: Global, tight: &Tight, rows: u32) -> Result<Windows, AllocError> {
        let mut placed = Vec::new(alloc);
        let mut spread = 0;
        let mut earliest = 0;
        for row in 0..rows {
            let least = least_between(tight, 0, row);
            let greatest = greatest_between(tight, 0, row);
            spread = spread.max(greatest.saturating_sub(least));
            if greatest < greatest_between(tight, 0, earliest) {
                earliest = row;
            }
            placed.push(Placed { least, row })?;
        }
        placed.sort_unstable();
        Ok(Windows {
            placed,
            spread,
            earliest,
        })
    }

    /// A row whose greatest time is as small as any: the one that is always before all others, if there is such a row.
    pub fn earliest(&self) -> u32 {
        self.earliest
    }

    /// All rows that can be from one time up to another, and some more.
    pub fn between(&self, from: i128, to: i128) -> &[Placed] {
        let placed = self.placed.as_slice();
        let start = from.saturating_sub(self.spread);
        let low = passing(placed.len(), |at| least_at(placed, at) < start);
        let high = passing(placed.len(), |at| least_at(placed, at) <= to);
        &placed[low.min(high)..high]
    }
}
