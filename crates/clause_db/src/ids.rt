//! Variables and clauses by their numbers.

ghost use Rattle.std.specs.Prelude.{◌≡◌};

use std::marker::Model;

/// A variable, by its number from 0.
#[derive(Clone, Copy, PartialEq, Eq, PartialOrd, Ord, Hash)]
pub struct Var(u32);

impl Model for Var {
    ghost use Rattle.std.specs.Prelude.{ℕ};

    ghost Value = { ℕ };

    ghost view = { λ v. v.0 };

    ghost inverse = { λ n. record { 0 = n } };
}

impl Var {
    /// The variable of this number.
    pub fn new(n: u32) -> Var
        ensures number { result ≡ n }
    {
        Var(n)
    }

    /// Its number.
    pub fn get(&self) -> u32
        ensures number { result ≡ self.now }
    {
        self.0
    }
}

/// A clause of a `Db`, by its place in the order of adding, from 0.
#[derive(Clone, Copy, PartialEq, Eq, PartialOrd, Ord, Hash)]
pub struct ClauseRef(u32);

impl Model for ClauseRef {
    ghost use Rattle.std.specs.Prelude.{ℕ};

    ghost Value = { ℕ };

    ghost view = { λ c. c.0 };

    ghost inverse = { λ n. record { 0 = n } };
}

impl ClauseRef {
    /// The clause at this place.
    pub fn new(n: u32) -> ClauseRef
        ensures place { result ≡ n }
    {
        ClauseRef(n)
    }

    /// Its place.
    pub fn get(&self) -> u32
        ensures place { result ≡ self.now }
    {
        self.0
    }
}
