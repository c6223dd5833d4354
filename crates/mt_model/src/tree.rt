//! Formulas of metric temporal logic (Koymans 1990) as trees.

ghost use Rattle.std.specs.Prelude.{◌<◌};

use crate::Name;

/// Distances in time, in the log's unit: from `low` on up to `high`, both of them in it. Where `high`
/// is None, there is no upper bound.
#[derive(Clone, Copy, PartialEq, Eq, Hash)]
pub struct Interval {
    pub low: u64,
    pub high: Option<u64>,
}

/// A formula of metric temporal logic (Koymans 1990) as it is written, over the positions of a timing.
///
/// Until and since are non-strict: the left side is asked at the position itself and not at the one
/// where the right side holds.
#[derive(Drop)]
pub enum Tree {
    True,
    False,
    /// A proposition of a host.
    Prop { host: Name, name: Name },
    Not(Box<Tree>),
    And(Box<Tree>, Box<Tree>),
    Or(Box<Tree>, Box<Tree>),
    Implies(Box<Tree>, Box<Tree>),
    /// The second holds at some position from here on, at a distance in the interval, and the first
    /// from here on up to there.
    Until(Interval, Box<Tree>, Box<Tree>),
    /// The second held at some position up to here, at a distance in the interval, and the first from
    /// after there on up to here.
    Since(Interval, Box<Tree>, Box<Tree>),
    /// At some position from here on, at a distance in the interval.
    Eventually(Interval, Box<Tree>),
    /// At each position from here on, at a distance in the interval.
    Always(Interval, Box<Tree>),
    /// At some position up to here, at a distance in the interval.
    Once(Interval, Box<Tree>),
    /// At each position up to here, at a distance in the interval.
    Historically(Interval, Box<Tree>),
}
