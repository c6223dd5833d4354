//! The truth of each node of an arena at each row of a timing.
//!
//! The values stand in a table: node k has its column from place `k * rows` on, with one value for each
//! row. Columns are filled in the order of the nodes, so those of a node's children are there before it.

ghost use Rattle.std.specs.Prelude.{◌≡◌, ◌<◌, ◌≤◌, ◌+◌, ◌*◌, ℕ, ℤ, ◌≤ℤ◌, length, All};
ghost use Rattle.mt_model.specs.Log.{IsWithin};
ghost use Rattle.mt_model.specs.Timing.{time_of};
ghost use Rattle.mt_model.specs.Truth.{truth, truth_of};
ghost use Rattle.mt_model.specs.declared.limits.TheConstants.{MAX_TIME};
ghost use Rattle.formula_arena.specs.Nodes.{tree_at};
ghost use Rattle.witness_replay.specs.Columns.{IsColumn};
ghost use Rattle.witness_replay.specs.Tables.{ColumnsAreTruths, column_at};
ghost use Rattle.witness_replay.specs.Timelines.{IsTimeline};

use crate::columns::{fill, fill_conjunction, fill_negation, fill_reaches, fill_states};
use crate::operators::Operator;
use crate::timeline::Timeline;
use formula_arena::{Arena, Core, Direction};
use mt_model::{Log, NodeId, truth_by_rows};

// The column of a node.
fn column(table: &[bool], rows: usize, node: NodeId) -> &[bool]
    requires { node * rows + rows ≤ length table.now }
    ensures { result.now ≡ column_at rows table.now node }
{
    let start = node.get() as usize * rows;
    &table[start..start + rows]
}

// Fills the column of a node from those of the nodes before it.
fn fill_node(
    log: &Log,
    arena: &Arena,
    timeline: Timeline,
    node: NodeId,
    before: &[bool],
    target: &mut [bool],
)
    requires count { length timeline.times.now ≡ length log.now.rows }
    requires range { All (IsWithin MAX_TIME) timeline.times.now }
    requires timeline { IsTimeline timeline.times.now timeline.moments.now }
    requires node_in { node < length arena.now }
    requires before_room { length before.now ≡ node * length timeline.times.now }
    requires room { length target.old ≡ length timeline.times.now }
    requires before { ColumnsAreTruths log.now timeline.times.now arena.now node before.now }
    ensures { let t = timeline.entry.times.now in
        IsColumn (length t) (λ e. truth_of log.now t e (tree_at arena.now node)) target.new }
{
    let rows = timeline.times.len();
    match arena.node(node) {
        Core::True => fill(target, true),
        Core::Prop(prop) => {
            let (host, name) = arena.prop(prop);
            fill_states(log, timeline, host, name, target);
        }
        Core::Not(f) => fill_negation(column(before, rows, f), target),
        Core::And(f, g) => {
            fill_conjunction(column(before, rows, f), column(before, rows, g), target);
        }
        Core::Until(interval, f, g) => {
            let (left, right) = (column(before, rows, f), column(before, rows, g));
            let direction = Direction::Ahead;
            let operator = Operator {
                direction,
                interval,
            };
            fill_reaches(operator, timeline, left, right, target);
        }
        Core::Since(interval, f, g) => {
            let (left, right) = (column(before, rows, f), column(before, rows, g));
            let direction = Direction::Behind;
            let operator = Operator {
                direction,
                interval,
            };
            fill_reaches(operator, timeline, left, right, target);
        }
    }
}

// Fills the column of a node where those of the nodes before it are filled.
fn fill_next(log: &Log, arena: &Arena, timeline: Timeline, node: NodeId, table: &mut [bool])
    requires count { length timeline.times.now ≡ length log.now.rows }
    requires range { All (IsWithin MAX_TIME) timeline.times.now }
    requires timeline { IsTimeline timeline.times.now timeline.moments.now }
    requires node_in { node < length arena.now }
    requires room { length table.old ≡ length arena.now * length timeline.times.now }
    requires before { ColumnsAreTruths log.now timeline.times.now arena.now node table.old }
    ensures { ColumnsAreTruths log.now timeline.entry.times.now arena.now (node + 1) table.new }
{
    let rows = timeline.times.len();
    let (before, rest) = table.split_at_mut(node.get() as usize * rows);
    fill_node(log, arena, timeline, node, before, &mut rest[..rows]);
}

// Fills the table with the truth of each node at each row. What stands there before plays no part.
fn evaluate(log: &Log, arena: &Arena, timeline: Timeline, table: &mut [bool])
    requires count { length timeline.times.now ≡ length log.now.rows }
    requires range { All (IsWithin MAX_TIME) timeline.times.now }
    requires timeline { IsTimeline timeline.times.now timeline.moments.now }
    requires room { length table.old ≡ length arena.now * length timeline.times.now }
    ensures { ColumnsAreTruths log.now timeline.entry.times.now arena.now (length arena.now) table.new }
{
    for k in 0..arena.len() {
        fill_next(log, arena, timeline, NodeId::new(k), table);
    }
}

// A row of least time.
fn first_row(times: &[i128]) -> usize
    requires { 0 < length times.now }
    ensures within { result < length times.now }
    ensures least { (e : ℕ) → e < length times.now → time_of times.now result ≤ℤ time_of times.now e }
{
    let mut first = 0;
    for e in 1..times.len() {
        if times[e] < times[first] {
            first = e;
        }
    }
    first
}

/// The truth of a node at the first position of a timing. There is room in the table for a value of each node at each
/// row; what stands there before plays no part.
pub fn truth_at_first(
    log: &Log,
    arena: &Arena,
    node: NodeId,
    timeline: Timeline,
    table: &mut [bool],
) -> bool
    requires count { length timeline.times.now ≡ length log.now.rows }
    requires range { All (IsWithin MAX_TIME) timeline.times.now }
    requires timeline { IsTimeline timeline.times.now timeline.moments.now }
    requires node_in { node < length arena.now }
    requires room { length table.old ≡ length arena.now * length timeline.times.now }
    ensures { result ≡ truth log.now timeline.entry.times.now 0 (tree_at arena.now node) }
{
    truth_by_rows();
    prove!(!log.rows().is_empty());
    evaluate(log, arena, timeline, table);
    table[node.get() as usize * timeline.times.len() + first_row(timeline.times)]
}
