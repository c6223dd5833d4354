//! The two directions in which temporal operators look.

/// Where an operator looks from an event.
#[derive(Clone, Copy, PartialEq, Eq)]
pub enum Direction {
    /// At its instant and after it, as an until does.
    Ahead,
    /// At its instant and before it, as a since does.
    Behind,
}
