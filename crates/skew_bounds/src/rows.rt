//! What rows say of their clocks: local times, skews, gaps and readings.

ghost use Rattle.std.specs.Prelude.{◌≡◌, ◌<◌, ◌≤◌, length, IfSome, MatchOption};
ghost use Rattle.mt_model.specs.Log.{IsWithin};
ghost use Rattle.mt_model.specs.Spans.{spans_of};
ghost use Rattle.mt_model.specs.Clocks.{readings_of};
ghost use Rattle.mt_model.specs.Timing.{local_of, reading_of};
ghost use Rattle.mt_model.specs.declared.limits.TheConstants.{MAX_LOCAL};
ghost use Rattle.skew_bounds.specs.Edges.{IsSpanAt};
ghost use Rattle.skew_bounds.specs.Readings.{HasError};

use mt_model::{EventId, Log, Reading, Span, log_is_valid};

/// The local time of a row.
pub fn local_at(log: &Log, e: usize) -> i128
    requires { e < length log.now.rows }
    ensures local { result ≡ local_of log.now e }
    ensures range { IsWithin MAX_LOCAL result }
{
    log.rows()[e].local
}

/// The skew and the gap of a row, and None exactly where the log has no such row.
pub fn span_at(log: &Log, e: EventId) -> Option<Span>
    ensures { MatchOption result (length log.now.rows ≤ e) (IsSpanAt log.now e) }
{
    let row = e.get() as usize;
    if row < log.rows().len() {
        Some(Span {
            skew: log.skew_at(row),
            gap: log.gap_at(row),
        })
    } else {
        None
    }
}

/// The same where those of all rows are known.
pub fn known_span(log: &Log, spans: &[Span], e: EventId) -> Option<Span>
    requires { spans.now ≡ spans_of log.now }
    ensures { MatchOption result (length log.now.rows ≤ e) (IsSpanAt log.now e) }
{
    let row = e.get() as usize;
    if row < log.rows().len() {
        Some(spans[row])
    } else {
        None
    }
}

/// The reading of a row, where those of all rows are known.
pub fn row_reading(log: &Log, readings: &[Option<Reading>], e: usize) -> Option<Reading>
    requires row { e < length log.now.rows }
    requires readings { readings.now ≡ readings_of log.now }
    ensures reading { result ≡ reading_of log.now e }
    ensures error { IfSome result HasError }
{
    log_is_valid(log);
    readings[e]
}
