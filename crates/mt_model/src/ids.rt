//! Hosts, clocks, events, propositions and nodes by their numbers.

ghost use Rattle.std.specs.Prelude.{◌≡◌};

use std::marker::Model;

/// A host of a log, by its place among the hosts from 0.
#[derive(Clone, Copy, PartialEq, Eq)]
pub struct HostId(u32);

impl Model for HostId {
    ghost use Rattle.std.specs.Prelude.{ℕ};

    ghost Value = { ℕ };

    ghost view = { λ h. h.0 };

    ghost inverse = { λ n. record { 0 = n } };
}

impl HostId {
    /// The host at this place.
    pub fn new(n: u32) -> HostId
        ensures number { result ≡ n }
    {
        HostId(n)
    }

    /// Its place.
    pub fn get(&self) -> u32
        ensures number { result ≡ self.now }
    {
        self.0
    }
}

/// A clock that the stamps of rows are read from, by its place among the clocks from 0.
#[derive(Clone, Copy, PartialEq, Eq)]
pub struct ClockId(u32);

impl Model for ClockId {
    ghost use Rattle.std.specs.Prelude.{ℕ};

    ghost Value = { ℕ };

    ghost view = { λ k. k.0 };

    ghost inverse = { λ n. record { 0 = n } };
}

impl ClockId {
    /// The clock at this place.
    pub fn new(n: u32) -> ClockId
        ensures number { result ≡ n }
    {
        ClockId(n)
    }

    /// Its place.
    pub fn get(&self) -> u32
        ensures number { result ≡ self.now }
    {
        self.0
    }
}

/// An event, which is a row of a log, by its place among the rows from 0.
#[derive(Clone, Copy, PartialEq, Eq, PartialOrd, Ord)]
pub struct EventId(u32);

impl Model for EventId {
    ghost use Rattle.std.specs.Prelude.{ℕ};

    ghost Value = { ℕ };

    ghost view = { λ e. e.0 };

    ghost inverse = { λ n. record { 0 = n } };
}

impl EventId {
    /// The event at this place.
    pub fn new(n: u32) -> EventId
        ensures number { result ≡ n }
    {
        EventId(n)
    }

    /// Its place.
    pub fn get(&self) -> u32
        ensures number { result ≡ self.now }
    {
        self.0
    }
}

/// A proposition of a formula's nodes, by its number from 0.
#[derive(Clone, Copy, PartialEq, Eq, Hash)]
pub struct PropId(u32);

impl Model for PropId {
    ghost use Rattle.std.specs.Prelude.{ℕ};

    ghost Value = { ℕ };

    ghost view = { λ p. p.0 };

    ghost inverse = { λ n. record { 0 = n } };
}

impl PropId {
    /// The proposition of this number.
    pub fn new(n: u32) -> PropId
        ensures number { result ≡ n }
    {
        PropId(n)
    }

    /// Its number.
    pub fn get(&self) -> u32
        ensures number { result ≡ self.now }
    {
        self.0
    }
}

/// A node of a formula, by its number from 0.
#[derive(Clone, Copy, PartialEq, Eq, PartialOrd, Ord, Hash)]
pub struct NodeId(u32);

impl Model for NodeId {
    ghost use Rattle.std.specs.Prelude.{ℕ};

    ghost Value = { ℕ };

    ghost view = { λ k. k.0 };

    ghost inverse = { λ n. record { 0 = n } };
}

impl NodeId {
    /// The node of this number.
    pub fn new(n: u32) -> NodeId
        ensures number { result ≡ n }
    {
        NodeId(n)
    }

    /// Its number.
    pub fn get(&self) -> u32
        ensures number { result ≡ self.now }
    {
        self.0
    }
}
