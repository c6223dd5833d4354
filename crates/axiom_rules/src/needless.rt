//! The tests by which instances of rules are needless.

/// Where an instance of a rule on an until or a since is left out. What is said of an until is said of a since with
/// the events met the other way round. The pair is that of the first two events; it is in reach from below where its
/// distance is at least the interval's lower bound, and from above where it is at most the upper one.
#[derive(Clone, Copy, PartialEq, Eq)]
pub enum OfReach {
    /// The pair is always in reach from below, or is dead and may be in reach from below.
    AlwaysFrom,
    /// The pair is always in reach from above, or never from below.
    AlwaysUpTo,
    /// The pair is dead: its distance is never in the interval.
    Dead,
    /// The pair is dead, or the left side is `true`.
    DeadOrFree,
    /// The pair is dead, or the left side is `true`, or the third event is always before the first one or never before
    /// the second one.
    NotWithin,
    /// The pair is dead, or the left side is `true`, or the third event is always before the second one.
    NotPast,
    /// The left side is `true`, or the second event is never before the first one.
    FreeOrNotBefore,
    /// The left side is `true`.
    Free,
}

/// Where an instance of a rule is left out, since its clause is true in each timing that the log admits, or serves nothing.
#[derive(Clone, Copy, PartialEq, Eq)]
pub enum Needless {
    /// Nowhere.
    Never,
    /// The second event is never before the first one.
    NeverLater,
    /// The event is never a first one.
    NeverFirst,
    /// By what its until or since is.
    Reaches(OfReach),
}
