//! Edges that numbers miss, of which the one that they miss by most is taken out first.

ghost use Rattle.std.specs.Prelude.{◌≡◌, ◌<◌, ◌≤◌, ◌∷◌, [], length, All, IfSome, IfNone, IsPermutation, ◌≤ℤ◌};
ghost use Rattle.std.specs.BinaryHeap.{heap_items, heap_capacity};
ghost use Rattle.difference_graph.specs.Queues.{IsOrdered};

use std::collections::BinaryHeap;

/// An edge that numbers missed when it was put among those that wait.
#[derive(PartialEq, Eq, PartialOrd, Ord, Drop)]
pub struct Missed {
    /// By how much they missed it.
    pub by: i128,
    /// Its place.
    pub place: u32,
}

/// Puts an edge among those that wait, without taking memory.
pub fn wait(waiting: &mut BinaryHeap<Missed>, edge: Missed)
    requires order { IsOrdered (heap_items waiting.old) }
    requires room { length (heap_items waiting.old) < heap_capacity waiting.old }
    ensures order { IsOrdered (heap_items waiting.new) }
    ensures added { IsPermutation (edge ∷ heap_items waiting.old) (heap_items waiting.new) }
    ensures room { heap_capacity waiting.old ≤ heap_capacity waiting.new }
{
    let pushed = waiting.push(edge);
    pushed.unwrap()
}

/// Takes out an edge that was missed by most.
pub fn next_waiting(waiting: &mut BinaryHeap<Missed>) -> Option<Missed>
    requires order { IsOrdered (heap_items waiting.old) }
    ensures order { IsOrdered (heap_items waiting.new) }
    ensures taken { IfSome result (λ next. IsPermutation (heap_items waiting.old) (next ∷ heap_items waiting.new)) }
    ensures most { IfSome result (λ next. All (λ w. w.by ≤ℤ next.by) (heap_items waiting.old)) }
    ensures none { IfNone result (heap_items waiting.old ≡ []) }
    ensures empty { IfNone result (heap_items waiting.new ≡ []) }
    ensures room { heap_capacity waiting.old ≤ heap_capacity waiting.new }
{
    waiting.pop()
}
