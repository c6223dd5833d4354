//! What waits for an operand, and how tightly it binds.

ghost use Rattle.std.specs.Prelude.{◌≡◌, ◌<◌, IfOk};
ghost use Rattle.std.specs.List.{list_any};
ghost use Rattle.mtl_parse.specs.Machine.{applied, capped, complete, is_opened, letter_strength, strength, timed, top_binds};
ghost use Rattle.mtl_parse.specs.States.{completed_in, form_in, letter_in, pending_in, stack_in};

use crate::operand::Operand;
use crate::token::{Infix, Prefix};
use mt_model::Interval;
use std::alloc::{AllocError, Global};

/// A letter that was read.
#[derive(Drop)]
pub enum Letter {
    OfOne(Prefix),
    /// With its left side.
    OfTwo(Infix, Operand),
}

impl Letter {
    // How tightly it binds, as `Pending::strength` has it.
    fn strength(&self) -> u32
        ensures { result ≡ letter_strength (letter_in self.now) }
    {
        match self {
            Letter::OfOne(_) => 5,
            Letter::OfTwo(_, _) => 4,
        }
    }

    // The formula that it makes of its operand.
    fn applied(
        self,
        alloc: Global,
        interval: Interval,
        operand: Operand,
    ) -> Result<Operand, AllocError>
        ensures { IfOk result (λ o. form_in o ≡ capped (timed (letter_in self) interval (form_in operand))) }
    {
        match self {
            Letter::OfOne(op) => operand.timed(alloc, op, interval),
            Letter::OfTwo(op, left) => left.timed_with(alloc, op, interval, operand),
        }
    }
}

/// What stands before an operand and waits for it.
#[derive(Drop)]
pub enum Pending {
    /// An open parenthesis.
    Opened,
    Negation,
    /// A letter with its interval.
    Timed(Letter, Interval),
    LeftOfAnd(Operand),
    LeftOfOr(Operand),
    LeftOfImplies(Operand),
}

impl Pending {
    // How tightly it binds: the more, the tighter.
    fn strength(&self) -> u32
        ensures { result ≡ strength (pending_in self.now) }
    {
        match self {
            Pending::Opened => 0,
            Pending::LeftOfImplies(_) => 1,
            Pending::LeftOfOr(_) => 2,
            Pending::LeftOfAnd(_) => 3,
            Pending::Timed(letter, _) => letter.strength(),
            Pending::Negation => 5,
        }
    }

    fn is_opened(&self) -> bool
        ensures { result ≡ is_opened (pending_in self.now) }
    {
        match self {
            Pending::Opened => true,
            Pending::Negation => false,
            Pending::Timed(_, _) => false,
            Pending::LeftOfAnd(_) => false,
            Pending::LeftOfOr(_) => false,
            Pending::LeftOfImplies(_) => false,
        }
    }

    // What it is with its operand.
    fn applied(self, alloc: Global, operand: Operand) -> Result<Operand, AllocError>
        requires { 0 < strength (pending_in self) }
        ensures { IfOk result (λ o. form_in o ≡ capped (applied (pending_in self) (form_in operand))) }
    {
        match self {
            Pending::Opened => unreachable!(),
            Pending::Negation => operand.negated(alloc),
            Pending::Timed(letter, interval) => letter.applied(alloc, interval, operand),
            Pending::LeftOfAnd(left) => left.and(alloc, operand),
            Pending::LeftOfOr(left) => left.or(alloc, operand),
            Pending::LeftOfImplies(left) => left.implies(alloc, operand),
        }
    }
}

/// Whether a parenthesis is open.
pub fn has_opened(stack: &[Pending]) -> bool
    ensures { result ≡ list_any (λ p. is_opened (pending_in p)) stack.now }
{
    stack.iter().any(|pending| pending.is_opened())
}

// Whether the innermost of what is pending binds at least so tightly.
fn top_binds(stack: &[Pending], strength: u32) -> bool
    ensures { result ≡ top_binds strength (stack_in stack.now) }
{
    match stack.last() {
        Some(pending) => pending.strength() >= strength,
        None => false,
    }
}

/// An operand with what is still pending before it, the innermost last.
#[derive(Drop)]
pub struct Completed {
    pub stack: Vec<Pending>,
    pub operand: Operand,
}

/// Completes all that is pending before an operand and binds at least so tightly.
pub fn complete(
    alloc: Global,
    strength: u32,
    mut stack: Vec<Pending>,
    mut operand: Operand,
) -> Result<Completed, AllocError>
    requires { 0 < strength }
    ensures ok { IfOk result (λ c. completed_in c ≡ complete capped strength (stack_in stack.items) (form_in operand)) }
{
    while top_binds(&stack, strength) {
        if let Some(pending) = stack.pop() {
            operand = pending.applied(alloc, operand)?;
        }
    }
    Ok(Completed { stack, operand })
}
