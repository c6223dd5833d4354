//! The numbers with which a search for the greatest begins.

ghost use Rattle.std.specs.Prelude.{◌≡◌, ◌<◌, length, map, All, IfOk, IfSome, IsTrue, ◌+ℤ◌, ◌-ℤ◌};
ghost use Rattle.mt_model.specs.Log.{IsWithin};
ghost use Rattle.mt_model.specs.declared.limits.TheConstants.{MAX_TIME};
ghost use Rattle.skew_bounds.specs.Beginning.{IsBeginning, IsBoundFrom, IsMoved, IsNearLatest};
ghost use Rattle.skew_bounds.specs.Incoming.{IsNear, IsNetwork, lists_of};
ghost use Rattle.skew_bounds.specs.declared.latest.TheConstants.{UNREACHED};
ghost use Rattle.skew_bounds.specs.declared.column.TheConstants.{FAR};

use crate::column::FAR;
use crate::latest::UNREACHED;
use neg_cycle::Edge;
use std::alloc::{AllocError, Global};

fn is_near(number: i128) -> bool
    ensures near { IsTrue result → IsWithin FAR number }
{
    -FAR <= number && number <= FAR
}

/// Whether no number is further from 0 than two times of a log can be apart.
pub fn are_near(numbers: &[i128]) -> bool
    ensures near { IsTrue result → All (IsWithin FAR) numbers.now }
{
    numbers.iter().all(|number| is_near(*number))
}

// The bound of an edge from the zero moment.
fn bound_from_zero(edges: &[Edge]) -> Option<i128>
    ensures bound { IfSome result (IsBoundFrom 0 edges.now) }
    ensures near { IfSome result (IsWithin FAR) }
{
    for edge in edges {
        if edge.from == 0 && is_near(edge.bound) {
            return Some(edge.bound);
        }
    }
    None
}

fn raised(number: i128, raise: i128) -> i128
    requires number { IsWithin FAR number }
    requires raise { IsWithin (UNREACHED +ℤ FAR) raise }
    ensures { result ≡ number +ℤ raise }
{
    number + raise
}

// Numbers that are moved up so far.
fn all_raised(alloc: Global, raise: i128, numbers: &[i128]) -> Result<Vec<i128>, AllocError>
    requires raise { IsWithin (UNREACHED +ℤ FAR) raise }
    requires numbers { All (IsWithin FAR) numbers.now }
    ensures { IfOk result (λ all. all.items ≡ map (λ x. x +ℤ raise) numbers.now) }
{
    let mut all = Vec::with_capacity(alloc, numbers.len())?;
    for number in numbers {
        all.push(raised(*number, raise))?;
    }
    Ok(all)
}

// 0 for a node, and for each other one its number in a solution, moved up so far.
fn moved(alloc: Global, solution: &[i128], raise: i128, node: u32) -> Result<Vec<i128>, AllocError>
    requires raise { IsWithin (UNREACHED +ℤ FAR) raise }
    requires numbers { All (IsWithin FAR) solution.now }
    requires node { node < length solution.now }
    ensures { IfOk result (λ numbers. IsMoved solution.now raise node numbers.items) }
{
    let mut numbers = all_raised(alloc, raise, solution)?;
    numbers[node as usize] = 0;
    Ok(numbers)
}

// How far to move a potential up that has this number at a node, so that all is unreached.
fn beyond(number: i128) -> i128
    requires number { IsWithin MAX_TIME number }
    ensures raise { result ≡ UNREACHED -ℤ number }
    ensures small { IsWithin (UNREACHED +ℤ FAR) result }
{
    UNREACHED - number
}

/// Numbers with which a search for the greatest from a node may begin.
///
/// `incoming` has for each node the edges that end there. `potential` meets them all. `zero` are the greatest
/// numbers from the zero moment, where they are known: the search then goes only through nodes that lie nearer
/// to this one than by way of the zero moment. An error is want of memory.
pub fn beginning(
    alloc: Global,
    incoming: &[Vec<Edge>],
    potential: &[i128],
    zero: Option<&[i128]>,
    node: u32,
) -> Result<Vec<i128>, AllocError>
    requires network { IsNetwork (lists_of incoming.now) }
    requires potential { IsNear (lists_of incoming.now) potential.now }
    requires zero { IfSome zero (λ numbers. IsNearLatest (lists_of incoming.now) numbers.now) }
    requires node { node < length incoming.now }
    ensures { IfOk result (λ numbers. IsBeginning (lists_of incoming.now) node numbers.items) }
{
    let edges = incoming[node as usize].as_slice();
    match (zero, bound_from_zero(edges)) {
        (Some(zero), Some(bound)) => moved(alloc, zero, bound, node),
        _ => moved(alloc, potential, beyond(potential[node as usize]), node),
    }
}
