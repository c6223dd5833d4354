//! How large the problem of a log and a formula is.

ghost use Rattle.std.specs.Prelude.{◌≡◌, ◌<◌, ◌≤◌, ◌*◌, ◌^◌, MatchOption, length, count_by};
ghost use Rattle.std.specs.List.{range_with_len};
ghost use Rattle.mt_model.specs.declared.limits.TheConstants.{MAX_ROWS};
ghost use Rattle.skew_bounds.specs.Tight.{IsInconsistent, IsTight, events_of};
ghost use Rattle.formula_arena.specs.Nodes.{tree_at};
ghost use Rattle.question.specs.Extremes.{extremes_of, is_live as is_live_pair};
ghost use Rattle.question.specs.Size as sizes;

use crate::{farthest, nearest};
use formula_arena::{Arena, Core, Direction};
use mt_model::{Interval, Log, NodeId, log_is_valid};
use skew_bounds::Tight;

/// The greatest size of a problem.
pub const MAX_SIZE: u128 = 4_194_304;

/// The number that limits the size.
pub fn limit_is_a_number()
    ensures size { MAX_SIZE ≡ 4194304 }
{}

// Whether the distance of two events may be in an interval.
fn is_live(tight: &Tight, direction: Direction, interval: &Interval, i: u32, j: u32) -> bool
    ensures { result ≡ is_live_pair (extremes_of tight.now) direction interval.now i j }
{
    interval.low as i128 <= farthest(tight, direction, i, j)
        && interval
            .high
            .is_none_or(|high| nearest(tight, direction, i, j) <= high as i128)
}

// How many events are live for an interval from one event.
fn live_from(tight: &Tight, direction: Direction, interval: &Interval, i: u32) -> usize
    requires few { events_of tight.now ≤ MAX_ROWS }
    ensures { result ≡ count_by (is_live_pair (extremes_of tight.now) direction interval.now i) (range_with_len 0 (events_of tight.now)) }
{
    (0..tight.events() as u32)
        .filter(|j| is_live(tight, direction, interval, i, *j))
        .count()
}

// How many pairs of events are live for an interval.
fn live_pairs(tight: &Tight, direction: Direction, interval: &Interval) -> usize
    requires few { events_of tight.now ≤ MAX_ROWS }
    ensures count { result ≡ sizes.live_pairs (extremes_of tight.now) direction interval.now (events_of tight.now) }
    ensures at_most { result ≤ events_of tight.now * events_of tight.now }
{
    let mut count = 0;
    for i in 0..tight.events() as u32 {
        count += live_from(tight, direction, interval, i);
    }
    count
}

// Whether a node is `true`.
fn is_true(arena: &Arena, id: NodeId) -> bool
    requires { id < length arena.now }
    ensures { result ≡ sizes.is_true (tree_at arena.now id) }
{
    match arena.node(id) {
        Core::True => true,
        Core::Prop(_) => false,
        Core::Not(_) | Core::And(..) | Core::Until(..) | Core::Since(..) => false,
    }
}

// The size of an until or a since, whose left side may be `true`.
fn reach_size(tight: &Tight, direction: Direction, interval: &Interval, is_free: bool) -> u128
    requires few { events_of tight.now ≤ MAX_ROWS }
    ensures size { result ≡ sizes.reach_size (extremes_of tight.now) (events_of tight.now) direction interval.now is_free }
    ensures at_most { result ≤ 2 ^ 31 }
{
    let rows = tight.events() as u128;
    let pairs = if is_free {
        0
    } else {
        live_pairs(tight, direction, interval) as u128
    };
    rows * rows + rows * pairs
}

// The size of a node.
fn node_size(tight: &Tight, arena: &Arena, id: NodeId) -> u128
    requires few { events_of tight.now ≤ MAX_ROWS }
    requires node { id < length arena.now }
    ensures size { result ≡ sizes.tree_size (extremes_of tight.now) (events_of tight.now) (tree_at arena.now id) }
    ensures at_most { result ≤ 2 ^ 31 }
{
    match arena.node(id) {
        Core::Until(interval, left, _) => {
            reach_size(tight, Direction::Ahead, &interval, is_true(arena, left))
        }
        Core::Since(interval, left, _) => {
            reach_size(tight, Direction::Behind, &interval, is_true(arena, left))
        }
        Core::Prop(_) => 0,
        Core::True | Core::Not(_) | Core::And(..) => 0,
    }
}

// The size of all nodes.
fn nodes_size(tight: &Tight, arena: &Arena) -> u128
    requires few { events_of tight.now ≤ MAX_ROWS }
    ensures size { result ≡ sizes.size_by (extremes_of tight.now) (events_of tight.now) arena.now }
{
    let mut size = 0;
    for k in 0..arena.len() {
        size += node_size(tight, arena, NodeId::new(k));
    }
    size
}

/// The size of the problem for a log and the nodes of a formula, by the least and the greatest differences of the log's
/// events, and 0 without them, where no timing is admissible: for each until and since the square of the rows and, unless
/// its left side is `true`, the rows times the pairs of rows whose distance may be in the interval. Takes no memory.
pub fn size_of(log: &Log, arena: &Arena, tight: Option<&Tight>) -> u128
    requires tight { MatchOption tight (IsInconsistent log.now) (λ t. IsTight log.now t.now) }
    ensures size { sizes.IsSize log.now arena.now result }
{
    log_is_valid(log);
    match tight {
        Some(tight) => nodes_size(tight, arena),
        None => 0,
    }
}
