//! Numbers of nodes that are lowered until they meet edges (Bellman 1958, Ford 1956).

ghost use Rattle.std.specs.Prelude.{◌≡◌, ◌<◌, ◌∷◌, length, slice_set, All, IfNone, IfSome, OnOk, ◌+ℤ◌, ◌-ℤ◌, ◌<ℤ◌, IsPermutation};
ghost use Rattle.std.specs.BinaryHeap.{heap_items};
ghost use Rattle.mt_model.specs.Log.{IsWithin};
ghost use Rattle.mt_model.specs.declared.limits.TheConstants.{MAX_TIME};
ghost use Rattle.neg_cycle.specs.Systems.{IsEdge, IsWithin as IsBoundWithin, Meets, number_of};
ghost use Rattle.neg_cycle.specs.declared.system.TheConstants.{MAX_BOUND};
ghost use Rattle.skew_bounds.specs.Lowering.{IsLowered, IsRelaxed, IsSearch, ahead_of, entry_of};
ghost use Rattle.skew_bounds.specs.declared.latest.TheConstants.{UNREACHED};
ghost use Rattle.skew_bounds.specs.declared.column.TheConstants.{FAR};

use neg_cycle::Edge;
use std::alloc::AllocError;
use std::collections::BinaryHeap;

/// A node whose number was lowered, and how far below the node's number in a potential it was then.
///
/// The furthest ahead is the nearest by the slacks that the potential leaves the edges, none of which
/// is below 0 (Johnson, Efficient algorithms for shortest paths in sparse networks, 1977).
#[derive(PartialEq, Eq, PartialOrd, Ord, Drop)]
pub struct Waiting {
    /// How far the number was below that in the potential.
    pub ahead: i128,
    /// The node.
    pub node: u32,
}

// How far a number is below one in a potential.
fn difference(potential: i128, number: i128) -> i128
    requires potential { IsWithin MAX_TIME potential }
    requires number { IsWithin (UNREACHED +ℤ FAR) number }
    ensures { result ≡ potential -ℤ number }
{
    potential - number
}

/// How far the number of a node is below that in a potential.
pub fn ahead(potential: &[i128], numbers: &[i128], node: u32) -> i128
    requires search { IsSearch potential.now numbers.now }
    requires node { node < length potential.now }
    ensures ahead { result ≡ ahead_of potential.now numbers.now node }
{
    difference(potential[node as usize], numbers[node as usize])
}

/// A node that waits with a number.
pub fn waiting_at(potential: &[i128], node: u32, number: i128) -> Waiting
    requires near { All (IsWithin MAX_TIME) potential.now }
    requires node { node < length potential.now }
    requires number { IsWithin (UNREACHED +ℤ FAR) number }
    ensures waiting { result ≡ entry_of potential.now node number }
{
    Waiting {
        ahead: difference(potential[node as usize], number),
        node,
    }
}

// Gives a node a number, with which it waits.
fn lower(
    potential: &[i128],
    node: u32,
    number: i128,
    numbers: &mut [i128],
    waiting: &mut BinaryHeap<Waiting>,
) -> Result<(), AllocError>
    requires near { All (IsWithin MAX_TIME) potential.now }
    requires node { node < length potential.now }
    requires count { length numbers.old ≡ length potential.now }
    requires number { IsWithin (UNREACHED +ℤ FAR) number }
    ensures numbers { OnOk result (numbers.new ≡ slice_set numbers.old node number) }
    ensures waits { OnOk result (IsPermutation (entry_of potential.now node number ∷ heap_items waiting.old) (heap_items waiting.new)) }
{
    numbers[node as usize] = number;
    waiting.push(waiting_at(potential, node, number))?;
    Ok(())
}

fn sum(number: i128, bound: i128) -> i128
    requires number { IsWithin (UNREACHED +ℤ FAR) number }
    requires bound { IsBoundWithin MAX_BOUND bound }
    ensures { result ≡ number +ℤ bound }
{
    number + bound
}

// The number that meets an edge where it begins, if the number there is above that.
fn unmet(potential: &[i128], numbers: &[i128], edge: Edge) -> Option<i128>
    requires search { IsSearch potential.now numbers.now }
    requires edge { IsEdge (length potential.now) edge }
    ensures number { IfSome result (λ y. y ≡ number_of numbers.now edge.to +ℤ edge.bound) }
    ensures above { IfSome result (λ y. y <ℤ number_of numbers.now edge.from) }
    ensures met { IfNone result (Meets numbers.now edge) }
{
    let number = sum(numbers[edge.to as usize], edge.bound);
    if number < numbers[edge.from as usize] {
        Some(number)
    } else {
        None
    }
}

// Lowers the number where an edge begins to what meets the edge, if it is above that.
fn relax(
    edge: Edge,
    potential: &[i128],
    numbers: &mut [i128],
    waiting: &mut BinaryHeap<Waiting>,
) -> Result<(), AllocError>
    requires edge { IsEdge (length potential.now) edge }
    requires met { Meets potential.now edge }
    requires search { IsSearch potential.now numbers.old }
    ensures search { OnOk result (IsSearch potential.now numbers.new) }
    ensures lowered { OnOk result (IsRelaxed potential.now edge numbers.old (heap_items waiting.old) numbers.new (heap_items waiting.new)) }
{
    if let Some(number) = unmet(potential, numbers, edge) {
        lower(potential, edge.from, number, numbers, waiting)?;
    }
    Ok(())
}

/// Lowers the numbers where edges begin to what meets these edges, which all end at one node. A node
/// that was lowered waits, for the edges that end there.
pub fn lower_before(
    edges: &[Edge],
    node: u32,
    potential: &[i128],
    numbers: &mut [i128],
    waiting: &mut BinaryHeap<Waiting>,
) -> Result<(), AllocError>
    requires edges { All (IsEdge (length potential.now)) edges.now }
    requires ends { All (λ e. e.to ≡ node) edges.now }
    requires met { All (Meets potential.now) edges.now }
    requires search { IsSearch potential.now numbers.old }
    ensures search { OnOk result (IsSearch potential.now numbers.new) }
    ensures lowered { OnOk result (IsLowered potential.now node edges.now numbers.old (heap_items waiting.old) numbers.new (heap_items waiting.new)) }
{
    for edge in edges {
        relax(*edge, potential, numbers, waiting)?;
    }
    Ok(())
}
