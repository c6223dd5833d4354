//! What is sought of two events.

ghost use Rattle.verdict_span.specs.Spaced.{CanBeSpaced};

use best_answer::Aim;
use mt_model::EventId;

/// A value that is sought, and two events of the log, of which `to` is to come as long after e as the value allows.
#[derive(Clone, Copy)]
pub struct Span<'a> {
    pub aim: Aim<'a>,
    pub e: EventId,
    pub to: EventId,
    ghost pair: { CanBeSpaced aim.log.now e to },
}
