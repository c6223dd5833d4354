//! Walks along the edges of steps.

ghost use Rattle.std.specs.Prelude.{◌≡◌, ◌↔◌, ◌^◌, option_map, MatchOption, IfSome, IsTrue, pos, ◌<ℤ◌};
ghost use Rattle.mt_model.specs.Walks.{edge_of as edge_of_step};
ghost use Rattle.skew_bounds.specs.Edges.{edge_in};
ghost use Rattle.skew_bounds.specs.RowEdges.{IsEdgeTableOf};
ghost use Rattle.proof_check.specs.Cycles.{bound_edge_of};
ghost use Rattle.proof_check.specs.Walking.{Goes, IsNear, Stops};

use mt_model::{Log, MAX_ORDER, Step};
use neg_cycle::Edge;
use skew_bounds::{EdgeTable, bound_of, edge_of};

/// The node at which a walk begins, the one to which it has come, and the sum of its steps' bounds.
#[derive(Clone, Copy)]
pub struct Walk {
    start: u32,
    end: u32,
    sum: i128,
}

impl Walk {
    /// The walk without steps.
    pub fn at(node: u32) -> Walk
        ensures { result ≡ record { start = node; «end» = node; sum = pos 0 } }
    {
        Walk {
            start: node,
            end: node,
            sum: 0,
        }
    }

    /// The walk with an edge more, where there is one that begins at the walk's end.
    pub fn then(self, edge: Option<Edge>) -> Option<Walk>
        requires near { IsNear (2 ^ 122) self.sum }
        requires bound { IfSome edge (λ x. IsNear (2 ^ 90) x.bound) }
        ensures { MatchOption result (Stops self (option_map edge_in edge)) (λ further. Goes self (option_map edge_in edge) further) }
    {
        match edge {
            Some(edge) if edge.from == self.end => Some(Walk {
                start: self.start,
                end: edge.to,
                sum: self.sum + edge.bound,
            }),
            _ => None,
        }
    }

    /// Whether it comes back to its start with a negative sum.
    pub fn is_negative_cycle(self) -> bool
        ensures { IsTrue result ↔ ((self.start ≡ self.«end») × (self.sum <ℤ pos 0)) }
    {
        self.start == self.end && self.sum < 0
    }
}

/// The edge of a step that is a bound of the log, looked up in the table of its edges where that is known.
pub fn bound_edge(log: &Log, known: Option<&EdgeTable>, step: Step) -> Option<Edge>
    requires table { IfSome known (λ t. IsEdgeTableOf log.now t.now) }
    ensures edge { option_map edge_in result ≡ bound_edge_of log.now step }
    ensures near { IfSome result (λ x. IsNear (2 ^ 90) x.bound) }
{
    let bound = bound_of(step)?;
    match known {
        Some(table) => table.edge(log, bound),
        None => edge_of(log, bound),
    }
}

// The edge of the order step `t_e - t_f <= c`.
fn order_edge(log: &Log, e: u32, f: u32, c: i128) -> Option<Edge>
    ensures edge { option_map edge_in result ≡ edge_of_step log.now (Step.Order e f c) }
    ensures near { IfSome result (λ x. IsNear (2 ^ 90) x.bound) }
{
    let rows = log.rows().len() as u32;
    if e < rows && f < rows && e != f && -MAX_ORDER <= c && c <= MAX_ORDER {
        Some(Edge {
            from: e + 1,
            to: f + 1,
            bound: c,
        })
    } else {
        None
    }
}

/// The edge of a step.
pub fn step_edge(log: &Log, table: &EdgeTable, step: Step) -> Option<Edge>
    requires table { IsEdgeTableOf log.now table.now }
    ensures edge { option_map edge_in result ≡ edge_of_step log.now step }
    ensures near { IfSome result (λ x. IsNear (2 ^ 90) x.bound) }
{
    match step {
        Step::Order { e, f, c } => order_edge(log, e, f, c),
        _ => bound_edge(log, Some(table), step),
    }
}
