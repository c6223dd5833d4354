//! Numbers that meet all edges but one, lowered until they meet it too, as Cotton and Maler (2006)
//! do: each node is lowered at most once, that of the edge with the least slack first.

ghost use Rattle.std.specs.Prelude.{◌≡◌, List, ◌+◌, ◌<◌, ◌≤◌, ◌++◌, ◌∷◌, [], length, slice_set, All, vec_capacity, ℤ, ◌+ℤ◌};
ghost use Rattle.neg_cycle.specs.Systems.{IsEdge, IsSystem, Meets, IsNegativeCycle, VisitsOnce, edge_at, number_of};
ghost use Rattle.difference_graph.specs.Gaps.{IsNumber, IsNearNumber};
ghost use Rattle.difference_graph.specs.Graphs.{IfKept, IfRefused};
ghost use Rattle.difference_graph.specs.Incoming.{AreIncoming};
ghost use Rattle.difference_graph.specs.Work.{HasWorkRoom, KeepsRoom, MeetsFirst, AreFormer, DiffersAt};

use crate::Push;
use crate::held::Held;
use crate::queue::{enqueue_incoming, enqueue_missed, next_missed};
use crate::trace::trace;
use crate::work::Work;
use mt_list::push_within;
use neg_cycle::Edge;

/// Lowers numbers until they meet all edges, where those before the last one are met already. The node
/// at its end keeps its number: where it would be lowered, the edges that asked for it close a walk of
/// negative sum, which is put into the work's walk, and the numbers are put back.
pub fn repair(held: &Held, place: u32, numbers: &mut [i128], work: &mut Work) -> Push
    requires place { place + 1 ≡ length held.now.edges.items }
    requires system { IsSystem (length numbers.old) held.now.edges.items }
    requires incoming { AreIncoming held.now.edges.items held.now.last.items held.now.before.items }
    requires nodes { length held.now.last.items ≡ length numbers.old }
    requires first { MeetsFirst held.now.edges.items place numbers.old }
    requires near { All IsNearNumber numbers.old }
    requires room { HasWorkRoom (length numbers.old) (length held.now.edges.items) work.old }
    ensures count { length numbers.new ≡ length numbers.old }
    ensures numbers { All IsNumber numbers.new }
    ensures met { IfKept result (All (Meets numbers.new) held.now.edges.items) }
    ensures same { IfRefused result (numbers.new ≡ numbers.old) }
    ensures cycle { IfRefused result (IsNegativeCycle held.now.edges.items work.new.walk.items) }
    ensures once { IfRefused result (VisitsOnce held.now.edges.items work.new.walk.items) }
    ensures room { KeepsRoom work.old work.new }
{
    work.waiting.clear();
    work.order.clear();
    work.former.clear();
    let end = held.edges[place as usize].to;
    if let Some(closing) = enqueue_missed(&held.edges, place, end, numbers, &mut work.waiting) {
        trace(&held.edges, &work.order, closing, &mut work.walk);
        return Push::Cycle;
    }
    while let Some(next) = next_missed(&held.edges, numbers, &mut work.waiting) {
        lower(
            &held.edges,
            next,
            numbers,
            &mut work.order,
            &mut work.former,
        );
        let node = held.edges[next as usize].from;
        if let Some(closing) = enqueue_incoming(held, node, end, numbers, &mut work.waiting) {
            trace(&held.edges, &work.order, closing, &mut work.walk);
            put_back(&held.edges, &work.order, &work.former, numbers);
            return Push::Cycle;
        }
    }
    Push::Kept
}

// Lowers the number where the edge at a place begins to what just meets the edge, and notes the place
// and what the number was.
fn lower(
    edges: &[Edge],
    place: u32,
    numbers: &mut [i128],
    order: &mut Vec<u32>,
    former: &mut Vec<i128>,
)
    requires place { place < length edges.now }
    requires edges { All (IsEdge (length numbers.old)) edges.now }
    requires numbers { All IsNumber numbers.old }
    requires order_room { length order.old.items < vec_capacity order.old }
    requires former_room { length former.old.items < vec_capacity former.old }
    ensures numbers { let edge = edge_at edges.now place in numbers.new ≡ slice_set numbers.old edge.from (number_of numbers.old edge.to +ℤ edge.bound) }
    ensures order { order.new.items ≡ order.old.items ++ place ∷ [] }
    ensures former { former.new.items ≡ former.old.items ++ number_of numbers.old (edge_at edges.now place).from ∷ [] }
    ensures order_room { vec_capacity order.old ≤ vec_capacity order.new }
    ensures former_room { vec_capacity former.old ≤ vec_capacity former.new }
{
    let edge = edges[place as usize];
    push_within(former, numbers[edge.from as usize]);
    numbers[edge.from as usize] = numbers[edge.to as usize] + edge.bound;
    push_within(order, place);
}

// Puts back the numbers of the nodes where the edges at these places begin.
fn put_back(edges: &[Edge], places: &[u32], former: &[i128], numbers: &mut [i128])
    requires within { All (λ p. p < length edges.now) places.now }
    requires edges { All (IsEdge (length numbers.old)) edges.now }
    requires count { length former.now ≡ length places.now }
    ensures same { (old : List ℤ) → AreFormer edges.now places.now old former.now → DiffersAt edges.now places.now old numbers.old → numbers.new ≡ old }
{
    let mut left = places.len();
    while left > 0 {
        left -= 1;
        numbers[edges[places[left] as usize].from as usize] = former[left];
    }
}
