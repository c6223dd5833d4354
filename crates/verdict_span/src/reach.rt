//! How far below a search its lines refute too: those that refute a distance may refute smaller ones.

ghost use Rattle.std.specs.Prelude.{◌≡◌, ◌↔◌, ◌<◌, ◌≤◌, ◌^◌, length, ◌+ℤ◌, ◌≤ℤ◌, IfOk, IsTrue};
ghost use Rattle.mt_model.specs.Log.{IsWithin};
ghost use Rattle.mt_model.specs.declared.limits.TheConstants.{MAX_EXTRA, MAX_TIME};
ghost use Rattle.best_answer.specs.Aims.{AreRefuting};
ghost use Rattle.verdict_span.specs.Spans.{distant};

use crate::climb::gap;
use crate::spacing::{SpacedLog, spaced};
use crate::span::Span;
use best_answer::Growing;
use mt_model::log_is_valid;
use proof_log::Line;
use std::alloc::{AllocError, Global};

// Whether lines refute the value where `to` comes at least c after e.
fn refutes_at(alloc: Global, span: &Span, c: i128, lines: &[Line]) -> Result<bool, AllocError>
    requires range { IsWithin MAX_EXTRA c }
    requires few { length lines.now < 2 ^ 32 }
    ensures refutes { IfOk result (λ b. IsTrue b ↔ AreRefuting span.now.aim (distant span.now c) lines.now) }
{
    let near = spaced(alloc, span, c)?;
    span.aim.is_refuted_in(alloc, &near.log, lines)
}

// How much less than that of a log the distance can be with the sums of all walks below 0, as far as this.
fn room_below(alloc: Global, span: &Span, there: &SpacedLog, most: u128, lines: &[Line]) -> u128
    ensures at_most { result ≤ most }
{
    log_is_valid(span.aim.log);
    let extra = span.aim.log.extras().len() as u32;
    Growing::Extra(extra).room(alloc, &there.log, lines, most)
}

/// The least distance from `low` on with which lines refute the value that do with that of a log, so far as their walks
/// tell.
pub fn refuted_from(
    alloc: Global,
    span: &Span,
    low: i128,
    there: &SpacedLog,
    lines: &[Line],
) -> Result<i128, AllocError>
    requires spaced { there.now.log ≡ distant span.now there.now.c }
    requires order { low ≤ℤ there.now.c }
    requires low { IsWithin (MAX_TIME +ℤ MAX_TIME) low }
    requires high { IsWithin (MAX_TIME +ℤ MAX_TIME) there.now.c }
    requires few { length lines.now < 2 ^ 32 }
    requires refutes { AreRefuting span.now.aim there.now.log lines.now }
    ensures from { IfOk result (λ c. low ≤ℤ c) }
    ensures to { IfOk result (λ c. c ≤ℤ there.now.c) }
    ensures refutes { IfOk result (λ c. AreRefuting span.now.aim (distant span.now c) lines.now) }
{
    let r = room_below(alloc, span, there, gap(low, there.c), lines);
    if r == 0 {
        return Ok(there.c);
    }
    let c = there.c - r as i128;
    // A distance whose lines can't be judged for want of memory isn't taken.
    match refutes_at(alloc, span, c, lines) {
        Ok(true) => Ok(c),
        Ok(false) | Err(_) => Ok(there.c),
    }
}
