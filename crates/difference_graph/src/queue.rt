//! Edges that numbers miss, put among those that wait and taken from them.

ghost use Rattle.std.specs.Prelude.{◌≡◌, ◌<◌, ◌≤◌, length, All, Any, Contains, IfSome, IfNone};
ghost use Rattle.std.specs.BinaryHeap.{heap_items, heap_capacity};
ghost use Rattle.neg_cycle.specs.Systems.{IsEdge, Meets};
ghost use Rattle.difference_graph.specs.Gaps.{IsNumber};
ghost use Rattle.difference_graph.specs.Incoming.{AreIncoming};
ghost use Rattle.difference_graph.specs.Queues.{IsClosing, IsEnqueued, IsQueue, IsRest, IsNext, IsAdded, IsOrdered};

use crate::held::Held;
use crate::met::{is_met, slack_of};
use crate::waiting::{Missed, next_waiting, wait};
use neg_cycle::Edge;
use std::collections::BinaryHeap;

/// Puts the edge at a place among those that wait, if the numbers miss it. One that they miss and that
/// begins at the end isn't put there: its place is the answer.
pub fn enqueue_missed(
    edges: &[Edge],
    place: u32,
    end: u32,
    numbers: &[i128],
    waiting: &mut BinaryHeap<Missed>,
) -> Option<u32>
    requires place { place < length edges.now }
    requires edges { All (IsEdge (length numbers.now)) edges.now }
    requires numbers { All IsNumber numbers.now }
    requires order { IsOrdered (heap_items waiting.old) }
    requires room { length (heap_items waiting.old) < heap_capacity waiting.old }
    ensures order { IsOrdered (heap_items waiting.new) }
    ensures closing { IfSome result (IsClosing edges.now numbers.now end) }
    ensures enqueued { IfNone result (IsEnqueued edges.now numbers.now end place (heap_items waiting.old) (heap_items waiting.new)) }
    ensures room { heap_capacity waiting.old ≤ heap_capacity waiting.new }
{
    let edge = edges[place as usize];
    let slack = slack_of(numbers, edge);
    if slack >= 0 {
        return None;
    }
    if edge.from == end {
        return Some(place);
    }
    wait(waiting, Missed { by: -slack, place });
    None
}

/// Puts the edges that end at a node among those that wait, where the numbers miss them. Gives the
/// place of one that begins at the end, if the numbers miss such an edge.
pub fn enqueue_incoming(
    held: &Held,
    node: u32,
    end: u32,
    numbers: &[i128],
    waiting: &mut BinaryHeap<Missed>,
) -> Option<u32>
    requires node { node < length held.now.last.items }
    requires edges { All (IsEdge (length numbers.now)) held.now.edges.items }
    requires incoming { AreIncoming held.now.edges.items held.now.last.items held.now.before.items }
    requires numbers { All IsNumber numbers.now }
    requires order { IsOrdered (heap_items waiting.old) }
    requires queue { IsQueue held.now.edges.items numbers.now node (length held.now.edges.items) (heap_items waiting.old) }
    requires room { length held.now.edges.items ≤ heap_capacity waiting.old }
    ensures order { IsOrdered (heap_items waiting.new) }
    ensures closing { IfSome result (IsClosing held.now.edges.items numbers.now end) }
    ensures queue { IfNone result (IsQueue held.now.edges.items numbers.now node 0 (heap_items waiting.new)) }
    ensures added { IfNone result (All (IsAdded held.now.edges.items node end (heap_items waiting.old)) (heap_items waiting.new)) }
    ensures room { heap_capacity waiting.old ≤ heap_capacity waiting.new }
{
    let mut mark = held.last[node as usize];
    while mark > 0 {
        let place = mark - 1;
        if let Some(closing) = enqueue_missed(&held.edges, place, end, numbers, waiting) {
            return Some(closing);
        }
        mark = held.before[place as usize];
    }
    None
}

/// Takes out the edge that the numbers miss by most, if they miss one.
pub fn next_missed(
    edges: &[Edge],
    numbers: &[i128],
    waiting: &mut BinaryHeap<Missed>,
) -> Option<u32>
    requires edges { All (IsEdge (length numbers.now)) edges.now }
    requires numbers { All IsNumber numbers.now }
    requires order { IsOrdered (heap_items waiting.old) }
    requires queue { IsQueue edges.now numbers.now 0 0 (heap_items waiting.old) }
    ensures order { IsOrdered (heap_items waiting.new) }
    ensures met { IfNone result (All (Meets numbers.now) edges.now) }
    ensures next { IfSome result (IsNext edges.now numbers.now) }
    ensures waited { IfSome result (λ p. Any (λ w. w.place ≡ p) (heap_items waiting.old)) }
    ensures rest { IfSome result (λ p. IsRest edges.now numbers.now p (heap_items waiting.new)) }
    ensures fewer { IfSome result (λ p. All (Contains (heap_items waiting.old)) (heap_items waiting.new)) }
    ensures room { heap_capacity waiting.old ≤ heap_capacity waiting.new }
{
    while let Some(next) = next_waiting(waiting) {
        if !is_met(numbers, edges[next.place as usize]) {
            return Some(next.place);
        }
    }
    None
}
