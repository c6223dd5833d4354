//! Logs in which one event comes at least so long after another, and how long it comes after it in a timing.

ghost use Rattle.std.specs.Prelude.{◌≡◌, ◌<◌, All, length, IfOk};
ghost use Rattle.mt_model.specs.Log.{IsWithin};
ghost use Rattle.mt_model.specs.declared.limits.TheConstants.{MAX_EXTRA, MAX_TIME};
ghost use Rattle.skew_bounds.specs.Tight.{difference};
ghost use Rattle.verdict_span.specs.Spans.{distant};

use crate::span::Span;
use mt_model::{EventId, Extra, Log, log_is_valid};
use std::alloc::{AllocError, Global};

/// A log with the extra bound that of two events the one comes at least c after the other.
#[derive(Drop)]
pub struct SpacedLog {
    pub c: i128,
    pub log: Log,
}

/// The log with the extra bound that `to` comes at least c after e, in memory of its own.
pub fn spaced(alloc: Global, span: &Span, c: i128) -> Result<SpacedLog, AllocError>
    requires range { IsWithin MAX_EXTRA c }
    ensures by { IfOk result (λ there. there.c ≡ c) }
    ensures spaced { IfOk result (λ there. there.log ≡ distant span.now c) }
{
    log_is_valid(span.aim.log);
    let copy = span.aim.log.copy(alloc)?;
    let extra = Extra {
        e: span.e,
        f: span.to,
        c: -c,
    };
    match copy.with_extra(extra) {
        Ok(log) => Ok(SpacedLog { c, log }),
        Err(_) => Err(AllocError),
    }
}

/// How long after e `to` comes in a timing.
pub fn distance(times: &[i128], e: EventId, to: EventId) -> i128
    requires row { e < length times.now }
    requires other { to < length times.now }
    requires near { All (IsWithin MAX_TIME) times.now }
    ensures distance { result ≡ difference times.now e to }
{
    times[to.get() as usize] - times[e.get() as usize]
}
