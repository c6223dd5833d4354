//! The numbers of a search from one node, beside those from the zero moment.

ghost use Rattle.std.specs.Prelude.{◌≡◌, ℕ, ◌<◌, ◌≤◌, length, All, IfOk, IsTrue, ◌+ℤ◌};
ghost use Rattle.mt_model.specs.Log.{IsWithin};
ghost use Rattle.neg_cycle.specs.Systems.{number_of};
ghost use Rattle.skew_bounds.specs.Differences.{number_in};

use mt_model::MAX_TIME;
use std::alloc::{AllocError, Global};
use std::marker::Model;

/// More than two true times of a log, or one of them and the zero moment, can be apart, in the log's
/// unit of time.
pub const FAR: i128 = 2 * MAX_TIME;

/// The numbers of a search from one node, beside those from the zero moment. Most are the latter, moved up by
/// one amount; only the stretch from the first to the last that isn't is held.
#[derive(Drop)]
pub struct Column {
    raise: i128,
    start: usize,
    own: Vec<i128>,
}

impl Model for Column {
    ghost use Rattle.mt_model.specs.Log.{IsWithin};
    ghost use Rattle.skew_bounds.specs.Differences.{Stretch};
    ghost use Rattle.skew_bounds.specs.declared.column.TheConstants.{FAR};

    ghost Value = { Stretch };

    ghost view = { λ c. record { raise = c.raise; start = c.start; own = c.own.items } };

    ghost invariant = { λ c. IsWithin FAR c.raise };
}

impl Column {
    /// The column of these numbers, beside those from the zero moment.
    pub fn new(alloc: Global, zero: &[i128], numbers: &[i128]) -> Result<Column, AllocError>
        requires near { All (IsWithin FAR) zero.now }
        requires count { length numbers.now ≡ length zero.now }
        ensures { IfOk result (λ c. (i : ℕ) → i < length zero.now → number_in zero.now c i ≡ number_of numbers.now i) }
    {
        let raise = raise_of(numbers);
        let end = end_of_own(zero, numbers, raise);
        let start = start_of_own(zero, numbers, raise).min(end);
        Ok(Column {
            raise,
            start,
            own: numbers[start..end].to_vec(alloc)?,
        })
    }

    /// The number of a node.
    #[inline]
    pub fn number(&self, zero: &[i128], node: usize) -> i128
        requires near { All (IsWithin FAR) zero.now }
        requires node { node < length zero.now }
        ensures number { result ≡ number_in zero.now self.now node }
    {
        if self.start <= node && node - self.start < self.own.len() {
            self.own[node - self.start]
        } else {
            zero[node] + self.raise
        }
    }
}

// How far to move numbers up that give the zero moment 0, so that it gets its number among these; 0 where that is too far.
fn raise_of(numbers: &[i128]) -> i128
    ensures near { IsWithin FAR result }
{
    match numbers.first() {
        Some(number) if -FAR <= *number && *number <= FAR => *number,
        _ => 0,
    }
}

// Whether a node has its number from the zero moment, moved up.
fn is_moved(zero: &[i128], numbers: &[i128], raise: i128, node: usize) -> bool
    requires near { All (IsWithin FAR) zero.now }
    requires raise { IsWithin FAR raise }
    requires zero_node { node < length zero.now }
    requires node { node < length numbers.now }
    ensures moved { IsTrue result → number_of numbers.now node ≡ number_of zero.now node +ℤ raise }
{
    numbers[node] == zero[node] + raise
}

// The first node whose number isn't moved so.
fn start_of_own(zero: &[i128], numbers: &[i128], raise: i128) -> usize
    requires near { All (IsWithin FAR) zero.now }
    requires raise { IsWithin FAR raise }
    requires count { length numbers.now ≡ length zero.now }
    ensures within { result ≤ length numbers.now }
    ensures moved { (i : ℕ) → i < result → number_of numbers.now i ≡ number_of zero.now i +ℤ raise }
{
    for node in 0..numbers.len() {
        if !is_moved(zero, numbers, raise, node) {
            return node;
        }
    }
    numbers.len()
}

// The node behind the last one whose number isn't moved so.
fn end_of_own(zero: &[i128], numbers: &[i128], raise: i128) -> usize
    requires near { All (IsWithin FAR) zero.now }
    requires raise { IsWithin FAR raise }
    requires count { length numbers.now ≡ length zero.now }
    ensures within { result ≤ length numbers.now }
    ensures moved { (i : ℕ) → result ≤ i → i < length numbers.now → number_of numbers.now i ≡ number_of zero.now i +ℤ raise }
{
    let mut end = numbers.len();
    while 0 < end && is_moved(zero, numbers, raise, end - 1) {
        end -= 1;
    }
    end
}
