//! The true times of rows, from the numbers of their nodes.

ghost use Rattle.std.specs.Prelude.{◌≡◌, ◌<◌, length, map, All, IfOk, ◌-ℤ◌};
ghost use Rattle.mt_model.specs.Log.{IsWithin};
ghost use Rattle.mt_model.specs.declared.limits.TheConstants.{MAX_TIME};
ghost use Rattle.skew_bounds.specs.RowTimes.{times_of};

use mt_model::Times;
use std::alloc::{AllocError, Global};

fn difference(number: i128, zero: i128) -> i128
    requires near { IsWithin MAX_TIME (number -ℤ zero) }
    ensures { result ≡ number -ℤ zero }
{
    number - zero
}

// The numbers of the rows, relative to that of the zero moment.
fn relative(alloc: Global, zero: i128, numbers: &[i128]) -> Result<Times, AllocError>
    requires near { All (λ x. IsWithin MAX_TIME (x -ℤ zero)) numbers.now }
    ensures { IfOk result (λ t. t ≡ map (λ x. x -ℤ zero) numbers.now) }
{
    let mut times = Times::new(alloc);
    for number in numbers {
        times.push(difference(*number, zero))?;
    }
    Ok(times)
}

/// The true times of so many rows, where these are the numbers of the nodes: the zero moment's first, then
/// one a row, and then one a clock. Only differences of numbers are times, so each is relative to that of the
/// zero moment. Numbers and times are in the log's unit of time. An error is want of memory.
pub fn times_of(alloc: Global, rows: usize, numbers: &[i128]) -> Result<Times, AllocError>
    requires some { rows < length numbers.now }
    requires near { All (IsWithin MAX_TIME) (times_of rows numbers.now) }
    ensures times { IfOk result (λ t. t ≡ times_of rows numbers.now) }
{
    relative(alloc, numbers[0], &numbers[1..rows + 1])
}
