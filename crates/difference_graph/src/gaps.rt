//! Numbers of nodes, brought near to each other.

ghost use Rattle.std.specs.Prelude.{◌≡◌, ◌↔◌, ◌^◌, ◌<◌, ◌≤◌, length, All, IfSome, IsTrue, pos, ◌+ℤ◌, ◌≤ℤ◌, ◌<ℤ◌};
ghost use Rattle.neg_cycle.specs.declared.system.TheConstants.{MAX_NODES, MAX_BOUND};
ghost use Rattle.difference_graph.specs.Gaps.{IsNumber, IsNearNumber, IsNarrow, HasSameDifferences, IsLifted, KeepsMet, IsFound, IsRaisedBelow};

use crate::subtraction::difference;
use neg_cycle::{MAX_BOUND, MAX_NODES};

// How far below 0 a number may be where an edge is to be met.
const NEAR: i128 = 1 << 113;

/// Brings all numbers near to 0, and keeps the differences between them where none of these is above 2^113.
pub fn bring_near(numbers: &mut [i128])
    requires some { 0 < length numbers.old }
    requires few { length numbers.old ≤ MAX_NODES }
    requires numbers { All IsNumber numbers.old }
    ensures count { length numbers.new ≡ length numbers.old }
    ensures near { All IsNearNumber numbers.new }
    ensures met { KeepsMet numbers.old numbers.new }
    ensures same { IsNarrow numbers.old → HasSameDifferences numbers.old numbers.new }
{
    if are_near(numbers) {
        return;
    }
    lift(numbers);
    if !are_near(numbers) {
        close_gaps(numbers);
    }
}

// Raises all numbers by as much, so that the greatest becomes 0.
fn lift(numbers: &mut [i128])
    requires some { 0 < length numbers.old }
    requires numbers { All IsNumber numbers.old }
    ensures lifted { IsLifted numbers.old numbers.new }
{
    if let Some(greatest) = next_below(numbers, 1) {
        raise_below(numbers, 1, -greatest);
    }
}

// Brings all numbers near to 0: a gap between two of them that is greater than any
// bound becomes as great as the greatest, which still meets each edge across it.
fn close_gaps(numbers: &mut [i128])
    requires few { length numbers.old ≤ MAX_NODES }
    requires numbers { All IsNumber numbers.old }
    ensures count { length numbers.new ≡ length numbers.old }
    ensures near { All IsNearNumber numbers.new }
    ensures met { KeepsMet numbers.old numbers.new }
{
    let mut level: i128 = 0;
    'gaps: loop {
        match next_below(numbers, level) {
            None => return,
            Some(next) => {
                let below = level_below(level, next);
                raise_below(numbers, level, difference(below, next));
                level = below;
            }
        }
    }
}

// Whether no number is far from 0.
fn are_near(numbers: &[i128]) -> bool
    ensures near { IsTrue result ↔ All IsNearNumber numbers.now }
{
    numbers.iter().all(|number| is_near(*number))
}

fn is_near(number: i128) -> bool
    ensures near { IsTrue result ↔ IsNearNumber number }
{
    -NEAR <= number && number <= 0
}

// The greatest of the numbers below a level.
fn next_below(numbers: &[i128], level: i128) -> Option<i128>
    ensures found { IsFound numbers.now level result }
{
    let mut found: Option<i128> = None;
    for number in numbers {
        if is_next(found, *number, level) {
            found = Some(*number);
        }
    }
    found
}

// Whether a number is below a level and greater than the one that was found, if any.
fn is_next(found: Option<i128>, number: i128, level: i128) -> bool
    ensures next { IsTrue result ↔ ((number <ℤ level) × IfSome found (λ best. best <ℤ number)) }
{
    match found {
        None => number < level,
        Some(best) => number < level && best < number,
    }
}

// The next number below a level, or the number that is below it by the greatest bound, if that is
// nearer.
fn level_below(level: i128, next: i128) -> i128
    requires level { IsNumber level }
    requires next { IsNumber next }
    requires below { next <ℤ level }
    ensures below { result <ℤ level }
    ensures above { next ≤ℤ result }
    ensures near { level ≤ℤ (result +ℤ MAX_BOUND) }
    ensures cut { next <ℤ result → level ≡ result +ℤ MAX_BOUND }
{
    if level - next < MAX_BOUND {
        next
    } else {
        level - MAX_BOUND
    }
}

// Raises each number that is below a level.
fn raise_below(numbers: &mut [i128], level: i128, by: i128)
    requires numbers { All IsNumber numbers.old }
    requires low { pos 0 ≤ℤ by }
    requires high { by ≤ℤ pos (2 ^ 115) }
    ensures raised { IsRaisedBelow level by numbers.old numbers.new }
{
    for i in 0..numbers.len() {
        numbers[i] = raised(numbers[i], level, by);
    }
}

// The number, raised where it is below a level.
fn raised(number: i128, level: i128, by: i128) -> i128
    requires number { IsNumber number }
    requires low { pos 0 ≤ℤ by }
    requires high { by ≤ℤ pos (2 ^ 115) }
    ensures low { number <ℤ level → result ≡ number +ℤ by }
    ensures high { level ≤ℤ number → result ≡ number }
{
    if number < level { number + by } else { number }
}
