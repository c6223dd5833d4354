//! How long a search may take.

ghost use Rattle.std.specs.Prelude.{◌≡◌, ◌≤◌};

use std::marker::Model;

/// How many conflicts a search may have, from 1 to 1,000,000. Contracts see the number.
#[derive(Clone, Copy)]
pub struct Budget {
    conflicts: u32,
}

impl Model for Budget {
    ghost use Rattle.std.specs.Prelude.{ℕ};
    ghost use Rattle.cdcl_core.specs.Budgets.{IsBudget};

    ghost Value = { ℕ };

    ghost view = { λ b. b.conflicts };

    ghost inverse = { λ n. record { conflicts = n } };

    ghost invariant = { λ b. IsBudget b.conflicts };
}

impl Budget {
    /// So many conflicts. Takes no memory.
    pub fn new(conflicts: u32) -> Budget
        requires some { 1 ≤ conflicts }
        requires most { conflicts ≤ 1000000 }
        ensures conflicts { result ≡ conflicts }
    {
        Budget { conflicts }
    }

    /// How many conflicts there may be.
    pub fn get(self) -> u32
        ensures conflicts { result ≡ self }
        ensures some { 1 ≤ self }
        ensures most { self ≤ 1000000 }
    {
        self.conflicts
    }
}
