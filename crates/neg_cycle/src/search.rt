//! Relaxation (Bellman 1958, Ford 1956), with a walk kept for each node.

ghost use Rattle.std.specs.Prelude.{◌≡◌, ℕ, ◌+◌, ◌*◌, ◌<◌, ◌≤◌, ℤ, pos, ◌-ℤ◌, ◌≤ℤ◌, ◌<ℤ◌, [], ◌∷◌, ◌++◌, length, All, IfOk, IfSome, IfNone, OnOk, eqb, false, slice_index};
ghost use Rattle.std.specs.List.{list_any};
ghost use Rattle.neg_cycle.specs.Systems.{IsSystem, IsPotential, IsNegativeCycle, VisitsOnce, HasBoundsWithin, IfPotential, IfCycle, edge_at, number_of};
ghost use Rattle.neg_cycle.specs.Search.{visited, node_count, IsBeginning, AreLabels, IsRelaxed, IsPassed};

use crate::{Edge, Outcome};
use mt_list::ListOf;
use std::alloc::{AllocError, Global};

// A walk from a node, by the places of its edges.
#[derive(Drop)]
struct Walk {
    start: u32,
    places: Vec<u32>,
}

// For each node a number, and the walk to it that gave it this number.
#[derive(Drop)]
struct Labels {
    numbers: Vec<i128>,
    walks: Vec<Walk>,
}

// What an edge, or a pass over all edges, did to the labels.
#[derive(Drop)]
enum Progress {
    Kept,
    Raised,
    Refuted(Vec<u32>),
}

/// Numbers that meet every edge of a system, or a closed walk of negative sum over its edges, which
/// shows that no numbers meet them all.
///
/// The numbers are at least 0 and in the unit of the bounds. The walk is given by the places of its
/// edges in order. Only want of memory is an error.
pub fn solve(alloc: Global, nodes: u32, edges: &[Edge]) -> Result<Outcome, AllocError>
    requires { IsSystem nodes edges.now }

    ensures found { IfOk result (λ o. IfPotential o (IsPotential nodes edges.now)) }
    ensures low { IfOk result (λ o. IfPotential o (All (λ x. pos 0 ≤ℤ x))) }
    ensures high { (b : ℕ) → HasBoundsWithin b edges.now
        → IfOk result (λ o. IfPotential o (All (λ x. x ≤ℤ pos (nodes * b)))) }

    ensures cycle { IfOk result (λ o. IfCycle o (IsNegativeCycle edges.now)) }
    ensures once { IfOk result (λ o. IfCycle o (VisitsOnce edges.now)) }
{
    let mut labels = begin(alloc, nodes)?;
    'passes: loop {
        match pass(alloc, edges, &mut labels)? {
            Progress::Kept => return Ok(Outcome::Potential(ListOf::from_vec(labels.numbers))),
            Progress::Raised => {}
            Progress::Refuted(places) => return Ok(Outcome::Cycle(ListOf::from_vec(places))),
        }
    }
}

// The number 0 and the walk without an edge, for each node.
fn begin(alloc: Global, nodes: u32) -> Result<Labels, AllocError>
    ensures beginning { IfOk result (λ l. IsBeginning nodes l.numbers.items l.walks.items) }
{
    let mut numbers = Vec::new(alloc);
    let mut walks = Vec::new(alloc);
    for start in 0..nodes {
        numbers.push(0)?;
        walks.push(Walk {
            start,
            places: Vec::new(alloc),
        })?;
    }
    Ok(Labels { numbers, walks })
}

// Goes over all edges once.
fn pass(alloc: Global, edges: &[Edge], labels: &mut Labels) -> Result<Progress, AllocError>
    requires system { IsSystem (node_count labels.old) edges.now }
    requires labels { AreLabels edges.now labels.old }
    ensures labels { OnOk result (AreLabels edges.now labels.new) }
    ensures count { OnOk result (node_count labels.new ≡ node_count labels.old) }
    ensures did { IfOk result (IsPassed edges.now labels.old labels.new) }
{
    let mut raised = false;
    for place in 0..edges.len() {
        match relax(alloc, edges, place as u32, labels)? {
            Progress::Kept => {}
            Progress::Raised => raised = true,
            Progress::Refuted(places) => return Ok(Progress::Refuted(places)),
        }
    }
    Ok(if raised {
        Progress::Raised
    } else {
        Progress::Kept
    })
}

// Raises the number of the end of an edge that is not met.
fn relax(
    alloc: Global,
    edges: &[Edge],
    place: u32,
    labels: &mut Labels,
) -> Result<Progress, AllocError>
    requires system { IsSystem (node_count labels.old) edges.now }
    requires place { place < length edges.now }
    requires labels { AreLabels edges.now labels.old }
    ensures labels { OnOk result (AreLabels edges.now labels.new) }
    ensures count { OnOk result (node_count labels.new ≡ node_count labels.old) }
    ensures did { IfOk result (IsRelaxed (edge_at edges.now place) edges.now labels.old labels.new) }
{
    let edge = edges[place as usize];
    let number = labels.numbers[edge.from as usize] - edge.bound;
    if number <= labels.numbers[edge.to as usize] {
        Ok(Progress::Kept)
    } else {
        raise(alloc, edges, place, number, labels)
    }
}

// Gives the end of an edge that is not met the number that meets it. Where the walk comes back to
// this node, its loop has a negative sum, since no node has less than a walk through it gives it.
fn raise(
    alloc: Global,
    edges: &[Edge],
    place: u32,
    number: i128,
    labels: &mut Labels,
) -> Result<Progress, AllocError>
    requires system { IsSystem (node_count labels.old) edges.now }
    requires place { place < length edges.now }
    requires labels { AreLabels edges.now labels.old }
    requires number { let edge = edge_at edges.now place in
        number ≡ number_of labels.old.numbers.items edge.from -ℤ edge.bound }
    requires above { let edge = edge_at edges.now place in
        number_of labels.old.numbers.items edge.to <ℤ number }
    ensures labels { OnOk result (AreLabels edges.now labels.new) }
    ensures count { OnOk result (node_count labels.new ≡ node_count labels.old) }
    ensures did { IfOk result (IsRelaxed (edge_at edges.now place) edges.now labels.old labels.new) }
{
    let edge = edges[place as usize];
    let walk = &labels.walks[edge.from as usize];
    if let Some(i) = visit(edges, walk, edge.to) {
        return Ok(Progress::Refuted(extended(alloc, &walk.places[i..], place)?));
    }
    let longer = Walk {
        start: walk.start,
        places: extended(alloc, &walk.places, place)?,
    };
    labels.numbers[edge.to as usize] = number;
    labels.walks[edge.to as usize] = longer;
    Ok(Progress::Raised)
}

// After how many edges a walk is at a node.
fn visit(edges: &[Edge], walk: &Walk, node: u32) -> Option<usize>
    requires { All (λ p. p < length edges.now) walk.now.places.items }
    ensures within { IfSome result (λ i. i ≤ length walk.now.places.items) }
    ensures found { IfSome result (λ i. slice_index (visited edges.now walk.now) i ≡ node) }
    ensures none { IfNone result (list_any (eqb node) (visited edges.now walk.now) ≡ false) }
{
    let mut here = walk.start;
    for (i, place) in walk.places.iter().enumerate() {
        if here == node {
            return Some(i);
        }
        here = edges[*place as usize].to;
    }
    if here == node {
        Some(walk.places.len())
    } else {
        None
    }
}

// These places, and one more.
fn extended(alloc: Global, places: &[u32], last: u32) -> Result<Vec<u32>, AllocError>
    ensures { IfOk result (λ v. v.items ≡ places.now ++ last ∷ []) }
{
    let mut longer = Vec::with_capacity(alloc, places.len() + 1)?;
    longer.extend_from_slice(places)?;
    longer.push(last)?;
    Ok(longer)
}
