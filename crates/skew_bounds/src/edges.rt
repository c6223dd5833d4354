//! The edges of bounds, between the zero moment, the rows and the clocks.

ghost use Rattle.std.specs.Prelude.{◌≡◌, ◌+◌, ◌<◌, length, option_map, IfSome, Some};
ghost use Rattle.mt_model.specs.Bounds.{step_of};
ghost use Rattle.mt_model.specs.Spans.{spans_of};
ghost use Rattle.mt_model.specs.Walks.{clock_node, edge_of, node_count_of};
ghost use Rattle.mt_model.specs.declared.step.Step.TheVariants.{Low, High, Rise, Message, Late, Under, Over, Extra};
ghost use Rattle.neg_cycle.specs.Systems.{IsEdge};
ghost use Rattle.skew_bounds.specs.Edges.{IsSpanAt, edge_in};

use crate::rows::{known_span, local_at, span_at};
use mt_model::{Bound, ClockId, EventId, Log, Span, log_is_valid};
use neg_cycle::Edge;

fn node_of(log: &Log, e: usize) -> u32
    requires { e < length log.now.rows }
    ensures { result ≡ e + 1 }
{
    // For the proof: the call says how many rows a log has at most.
    log_is_valid(log);
    e as u32 + 1
}

// The clocks' nodes stand behind those of the rows.
fn node_of_clock(log: &Log, clock: ClockId) -> u32
    requires { clock < length log.now.clocks }
    ensures { result ≡ clock_node log.now clock }
{
    // For the proof: the call says how many rows and clocks a log has at most.
    log_is_valid(log);
    log.rows().len() as u32 + 1 + clock.get()
}

/// How many nodes the edges of a log's bounds are between: the zero moment, which is node 0, the rows and
/// the clocks.
pub fn node_count(log: &Log) -> u32
    ensures count { result ≡ node_count_of log.now }
{
    log_is_valid(log);
    log.rows().len() as u32 + 1 + log.clocks().len() as u32
}

fn low(log: &Log, e: EventId, span: Span) -> Edge
    requires { IsSpanAt log.now e span }
    ensures edge { Some (edge_in result) ≡ edge_of log.now (Low e) }
    ensures within { IsEdge (node_count_of log.now) result }
{
    let e = e.get() as usize;
    Edge {
        from: 0,
        to: node_of(log, e),
        bound: span.skew - local_at(log, e),
    }
}

fn high(log: &Log, e: EventId, span: Span) -> Edge
    requires { IsSpanAt log.now e span }
    ensures edge { Some (edge_in result) ≡ edge_of log.now (High e) }
    ensures within { IsEdge (node_count_of log.now) result }
{
    let e = e.get() as usize;
    Edge {
        from: node_of(log, e),
        to: 0,
        bound: local_at(log, e) + span.skew,
    }
}

fn rise(log: &Log, f: EventId, span: Span) -> Option<Edge>
    requires { IsSpanAt log.now f span }
    ensures edge { option_map edge_in result ≡ edge_of log.now (Rise f) }
    ensures within { IfSome result (IsEdge (node_count_of log.now)) }
{
    let f = f.get() as usize;
    let e = log.row_before(f)?;
    Some(Edge {
        from: node_of(log, e),
        to: node_of(log, f),
        bound: -span.gap,
    })
}

fn message(log: &Log, r: EventId) -> Option<Edge>
    ensures edge { option_map edge_in result ≡ edge_of log.now (Message r) }
    ensures within { IfSome result (IsEdge (node_count_of log.now)) }
{
    let r = r.get() as usize;
    if r < log.rows().len() {
        let s = log.send_for(r)?;
        Some(Edge {
            from: node_of(log, s),
            to: node_of(log, r),
            bound: -log.least_delay_at(r),
        })
    } else {
        None
    }
}

fn late(log: &Log, r: EventId) -> Option<Edge>
    ensures edge { option_map edge_in result ≡ edge_of log.now (Late r) }
    ensures within { IfSome result (IsEdge (node_count_of log.now)) }
{
    let r = r.get() as usize;
    if r < log.rows().len() {
        let s = log.send_for(r)?;
        let most = log.most_delay_at(r)?;
        Some(Edge {
            from: node_of(log, r),
            to: node_of(log, s),
            bound: most,
        })
    } else {
        None
    }
}

fn under(log: &Log, e: EventId) -> Option<Edge>
    ensures edge { option_map edge_in result ≡ edge_of log.now (Under e) }
    ensures within { IfSome result (IsEdge (node_count_of log.now)) }
{
    let e = e.get() as usize;
    if e < log.rows().len() {
        let reading = log.reading_at(e)?;
        Some(Edge {
            from: node_of_clock(log, reading.clock),
            to: node_of(log, e),
            bound: reading.error - local_at(log, e),
        })
    } else {
        None
    }
}

fn over(log: &Log, e: EventId) -> Option<Edge>
    ensures edge { option_map edge_in result ≡ edge_of log.now (Over e) }
    ensures within { IfSome result (IsEdge (node_count_of log.now)) }
{
    let e = e.get() as usize;
    if e < log.rows().len() {
        let reading = log.reading_at(e)?;
        Some(Edge {
            from: node_of(log, e),
            to: node_of_clock(log, reading.clock),
            bound: local_at(log, e) + reading.error,
        })
    } else {
        None
    }
}

fn extra(log: &Log, k: usize) -> Option<Edge>
    ensures edge { option_map edge_in result ≡ edge_of log.now (Extra k) }
    ensures within { IfSome result (IsEdge (node_count_of log.now)) }
{
    match log.extras().get(k) {
        Some(extra) => Some(Edge {
            from: extra.e.get() + 1,
            to: extra.f.get() + 1,
            bound: extra.c,
        }),
        None => None,
    }
}

/// The edge `x_from - x_to <= bound` of a bound, in the log's unit of time, and None exactly where the
/// log has no such bound. Node 0 is the zero moment, and node e + 1 is row e; behind the rows come the
/// clocks. Takes no memory.
///
/// - Low e: from 0 to e + 1, the row's skew less its local time.
/// - High e: from e + 1 to 0, the row's local time plus its skew.
/// - Rise f: from e + 1 to f + 1, where e is the row before f on its host, the negated gap of row f.
/// - Message r: from s + 1 to r + 1, where s is the send of what r receives, the negated least delay of r.
/// - Late r: from r + 1 to s + 1, the greatest delay of r, where there is one.
/// - Under e: from the clock of row e to e + 1, the error of its reading less its local time.
/// - Over e: from e + 1 to the clock of row e, its local time plus the error of its reading.
/// - Extra k, which says `t_e - t_f <= c`: from e + 1 to f + 1, c.
pub fn edge_of(log: &Log, bound: Bound) -> Option<Edge>
    ensures edge { option_map edge_in result ≡ edge_of log.now (step_of bound) }
    ensures within { IfSome result (IsEdge (node_count_of log.now)) }
{
    match bound {
        Bound::Low(e) => Some(low(log, e, span_at(log, e)?)),
        Bound::High(e) => Some(high(log, e, span_at(log, e)?)),
        Bound::Rise(f) => rise(log, f, span_at(log, f)?),
        Bound::Message(r) => message(log, r),
        Bound::Late(r) => late(log, r),
        Bound::Under(e) => under(log, e),
        Bound::Over(e) => over(log, e),
        Bound::Extra(k) => extra(log, k as usize),
    }
}

/// The same where the spans of the log's rows are known.
pub fn edge_by(log: &Log, spans: &[Span], bound: Bound) -> Option<Edge>
    requires { spans.now ≡ spans_of log.now }
    ensures edge { option_map edge_in result ≡ edge_of log.now (step_of bound) }
    ensures within { IfSome result (IsEdge (node_count_of log.now)) }
{
    match bound {
        Bound::Low(e) => Some(low(log, e, known_span(log, spans, e)?)),
        Bound::High(e) => Some(high(log, e, known_span(log, spans, e)?)),
        Bound::Rise(f) => rise(log, f, known_span(log, spans, f)?),
        Bound::Message(_) | Bound::Late(_) | Bound::Under(_) | Bound::Over(_) | Bound::Extra(_) =>
            edge_of(log, bound),
    }
}
