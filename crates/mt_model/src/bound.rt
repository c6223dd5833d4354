//! The bounds that a log sets to the true times of its rows.

use crate::EventId;
use mt_list::ListOf;

/// A bound that a log sets to the true times of its rows.
#[derive(Clone, Copy, PartialEq, Eq)]
pub enum Bound {
    /// A row's true time is at least its local time less its skew.
    Low(EventId),
    /// A row's true time is at most its local time plus its skew.
    High(EventId),
    /// A row comes at least its gap after the row before it on its host.
    Rise(EventId),
    /// A receive comes at least the least delay of its host after its send.
    Message(EventId),
    /// A receive comes at most the greatest delay of its host after its send.
    Late(EventId),
    /// What a row's clock shows is at least the row's local time less the error of the reading.
    Under(EventId),
    /// What a row's clock shows is at most the row's local time plus the error of the reading.
    Over(EventId),
    /// An extra bound, by its place from 0.
    Extra(u32),
}

/// Bounds in order.
pub type BoundList = ListOf<Bound>;
