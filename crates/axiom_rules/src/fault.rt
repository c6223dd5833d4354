//! Why an instance of a rule has no clause.

use std::alloc::AllocError;
use thiserror::Error;

/// Why a rule has no clause.
#[derive(Clone, Copy, Debug, Error)]
pub enum RuleFault {
    /// There is no rule of this number, or the rule asks for an upper bound that the interval lacks, or for a
    /// pulse and neither event is one.
    #[error("no rule of this number")]
    NoRule,
    /// A node, an event, a change or a pulse that isn't there, or an unused argument that isn't 0.
    #[error("an argument that is out of range")]
    Range,
    /// A node of another kind than the rule is about, a left side that isn't `true` where it has to be, or events in
    /// another order.
    #[error("a node of another kind")]
    Kind,
    /// The clause is true whatever the timing.
    #[error("a clause that says nothing")]
    Trivial,
    /// Want of memory.
    #[error("out of memory")]
    Memory,
}

impl From<AllocError> for RuleFault {
    ghost use Rattle.std.specs.Prelude.{◌≡◌};
    ghost use Rattle.axiom_rules.specs.declared.fault.RuleFault.TheVariants.{Memory};

    ghost from_gives = { λ _ f. f ≡ Memory };

    fn from(_: AllocError) -> Self {
        RuleFault::Memory
    }
}
