//! The edges of a log's bounds, looked up by row.

ghost use Rattle.std.specs.Prelude.{◌≡◌, option_map, IfOk, IfSome};
ghost use Rattle.mt_model.specs.Bounds.{step_of};
ghost use Rattle.mt_model.specs.Spans.{spans_of};
ghost use Rattle.mt_model.specs.Walks.{edge_of as edge_of_step, node_count_of};
ghost use Rattle.neg_cycle.specs.Systems.{IsEdge};
ghost use Rattle.skew_bounds.specs.Edges.{edge_in};
ghost use Rattle.skew_bounds.specs.RowEdges.{AreRowEdges, IsEdgeTableOf};

use crate::edges::{edge_by, edge_of};
use mt_model::{Bound, EventId, Log, Span};
use neg_cycle::Edge;
use std::alloc::{AllocError, Global};
use std::marker::Model;

/// The edges of the bounds of a row, each where the log has it.
#[derive(Clone, Copy)]
pub struct RowEdges {
    pub low: Option<Edge>,
    pub high: Option<Edge>,
    pub rise: Option<Edge>,
    pub message: Option<Edge>,
    pub late: Option<Edge>,
    pub under: Option<Edge>,
    pub over: Option<Edge>,
}

/// The edges of the bounds of all rows of a log. To look one up takes no search for the row before, for a send or for a
/// resync or a reading, of which a log may have many.
#[derive(Drop)]
pub struct EdgeTable {
    rows: Vec<RowEdges>,
}

impl Model for EdgeTable {
    ghost use Rattle.std.specs.Prelude.{List};
    ghost use Rattle.skew_bounds.specs.declared.row_edges.RowEdges.{RowEdges};

    ghost Value = { List RowEdges };

    ghost view = { λ t. t.rows.items };
}

// The edges of the bounds of a row.
fn edges_at(log: &Log, spans: &[Span], e: EventId) -> RowEdges
    requires { spans.now ≡ spans_of log.now }
    ensures { AreRowEdges log.now e result }
{
    RowEdges {
        low: edge_by(log, spans, Bound::Low(e)),
        high: edge_by(log, spans, Bound::High(e)),
        rise: edge_by(log, spans, Bound::Rise(e)),
        message: edge_by(log, spans, Bound::Message(e)),
        late: edge_by(log, spans, Bound::Late(e)),
        under: edge_by(log, spans, Bound::Under(e)),
        over: edge_by(log, spans, Bound::Over(e)),
    }
}

// The edges of a row that isn't in the log: none.
const NO_EDGES: RowEdges = RowEdges {
    low: None,
    high: None,
    rise: None,
    message: None,
    late: None,
    under: None,
    over: None,
};

// The edges of the bounds of a row, which the log may lack.
fn row_at(log: &Log, rows: &[RowEdges], e: EventId) -> RowEdges
    requires { IsEdgeTableOf log.now rows.now }
    ensures { AreRowEdges log.now e result }
{
    let e = e.get() as usize;
    if e < rows.len() { rows[e] } else { NO_EDGES }
}

impl EdgeTable {
    /// The edges of the bounds of all rows of a log. An error is want of memory.
    pub fn of(alloc: Global, log: &Log) -> Result<EdgeTable, AllocError>
        ensures table { IfOk result (IsEdgeTableOf log.now) }
    {
        let spans = log.spans(alloc)?;
        let mut rows = Vec::new(alloc);
        for e in 0..log.rows().len() {
            rows.push(edges_at(log, spans.as_slice(), EventId::new(e as u32)))?;
        }
        Ok(EdgeTable { rows })
    }

    /// The edge of a bound of the log whose edges these are, as `edge_of` gives it. Takes no memory.
    pub fn edge(&self, log: &Log, bound: Bound) -> Option<Edge>
        requires table { IsEdgeTableOf log.now self.now }
        ensures edge { option_map edge_in result ≡ edge_of_step log.now (step_of bound) }
        ensures within { IfSome result (IsEdge (node_count_of log.now)) }
    {
        match bound {
            Bound::Low(e) => row_at(log, &self.rows, e).low,
            Bound::High(e) => row_at(log, &self.rows, e).high,
            Bound::Rise(f) => row_at(log, &self.rows, f).rise,
            Bound::Message(r) => row_at(log, &self.rows, r).message,
            Bound::Late(r) => row_at(log, &self.rows, r).late,
            Bound::Under(e) => row_at(log, &self.rows, e).under,
            Bound::Over(e) => row_at(log, &self.rows, e).over,
            Bound::Extra(_) => edge_of(log, bound),
        }
    }
}
