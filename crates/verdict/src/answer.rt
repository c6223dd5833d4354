//! What an audit says of a report.

/// A part of a report.
#[derive(Clone, Copy, PartialEq, Eq)]
pub enum Part {
    /// The number of events.
    Events,
    /// The walk that leaves the log no timing.
    Inconsistent,
    /// The section for true.
    OnTrue,
    /// The section for false.
    OnFalse,
}

/// What an audit says of a report.
#[derive(Clone, Copy, PartialEq, Eq)]
pub enum Audit {
    /// The report shows what it claims.
    Accepted,
    /// The first part that doesn't show what it claims, and where: the line of a derivation or the step of a walk,
    /// counted from 1, and 0 for the part as a whole.
    Refused { part: Part, line: u32 },
}
