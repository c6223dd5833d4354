//! The least and greatest differences of rows, looked up.

ghost use Rattle.std.specs.Prelude.{◌≡◌, ◌+◌, ◌<◌, ◌+ℤ◌};
ghost use Rattle.mt_model.specs.Log.{IsWithin};
ghost use Rattle.mt_model.specs.declared.limits.TheConstants.{MAX_TIME};
ghost use Rattle.skew_bounds.specs.Differences.{IsOfRows};
ghost use Rattle.skew_bounds.specs.Tight.{events_of, greatest_of, least_of};

use crate::difference_table::Table;
use mt_model::EventId;
use std::marker::Model;

/// How long after one row of a log another comes at least and at most, over all timings that the log
/// admits, in the log's unit of time: the minimal network of its bounds (Dechter, Meiri and Pearl,
/// Temporal constraint networks, 1991). Where the other row comes first, the time is below 0.
#[derive(Drop)]
pub struct Tight {
    table: Table,
}

impl Model for Tight {
    ghost use Rattle.skew_bounds.specs.Differences.{Differences, IsOfRows};

    ghost Value = { Differences };

    ghost view = { λ t. t.table };

    ghost invariant = { λ t. IsOfRows t.table };
}

impl Tight {
    /// The differences that a table says, which is over the zero moment and the rows of a log.
    pub(crate) fn new(table: Table) -> Tight
        requires { IsOfRows table }
        ensures table { result ≡ table }
    {
        Tight { table }
    }

    /// How many rows the log has, each of which may be e or f below. Takes no memory.
    pub fn events(&self) -> usize
        ensures count { result ≡ events_of self.now }
    {
        self.table.nodes() - 1
    }

    /// The least `t_f - t_e`, t being an admissible timing. Takes no memory.
    pub fn least(&self, e: EventId, f: EventId) -> i128
        requires e { e < events_of self.now }
        requires f { f < events_of self.now }
        ensures least { result ≡ least_of self.now e f }
        ensures small { IsWithin (MAX_TIME +ℤ MAX_TIME) result }
    {
        -self.table.entry(node_of(e), node_of(f))
    }

    /// The greatest `t_f - t_e`, t being an admissible timing. Takes no memory.
    pub fn greatest(&self, e: EventId, f: EventId) -> i128
        requires e { e < events_of self.now }
        requires f { f < events_of self.now }
        ensures greatest { result ≡ greatest_of self.now e f }
        ensures small { IsWithin (MAX_TIME +ℤ MAX_TIME) result }
    {
        self.table.entry(node_of(f), node_of(e))
    }
}

// Node e + 1 is row e.
fn node_of(e: EventId) -> usize
    ensures { result ≡ e + 1 }
{
    e.get() as usize + 1
}
