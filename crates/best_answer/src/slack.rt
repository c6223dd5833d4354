//! How far the sum of a walk is below 0.

ghost use Rattle.skew_bounds.specs.RowEdges.{IsEdgeTableOf};

use mt_model::{Log, Step};
use skew_bounds::{EdgeTable, bound_of};

// The bound of a step of a walk in a log, whose edges these are.
fn bound_in(log: &Log, table: &EdgeTable, step: Step) -> i128
    requires { IsEdgeTableOf log.now table.now }
{
    if let Step::Order { c, .. } = step {
        return c;
    }
    let Some(bound) = bound_of(step) else {
        return 0;
    };
    match table.edge(log, bound) {
        Some(edge) => edge.bound,
        None => 0,
    }
}

/// By how much the sum of a walk in a log, whose edges these are, can grow and still be below 0.
pub fn walk_slack(log: &Log, table: &EdgeTable, steps: &[Step]) -> i128
    requires { IsEdgeTableOf log.now table.now }
{
    let mut sum: i128 = 0;
    for step in steps {
        sum = sum.saturating_add(bound_in(log, table, *step));
    }
    (-1i128).saturating_sub(sum)
}
