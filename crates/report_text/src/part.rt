//! The lines that say what follows them.

/// What the first line of a section says.
#[derive(Clone, Copy, PartialEq, Eq)]
pub enum Kind {
    Witness,
    /// With the number of its lines.
    Refuted(u32),
    /// With the number of its lines.
    Unknown(u32),
}

/// The first line after the number of events.
#[derive(Clone, Copy)]
pub enum Opening {
    /// With the number of steps.
    Inconsistent(u32),
    /// The first line of the true section.
    OnTrue(Kind),
}
