//! Clauses that grow out of the parts that a rule writes.

ghost use Rattle.std.specs.Prelude.{◌≡◌, ◌<◌, ◌++◌, [], ◌∷◌, map, true, AllPairs, OnOk};
ghost use Rattle.std.specs.List.{list_all, range_with_len};
ghost use Rattle.axiom_rules.specs.Adding.{Answers, with_literal, with_part, with_parts};
ghost use Rattle.axiom_rules.specs.Each.{AreBefore, IsNew, is_other, part_at};
ghost use Rattle.axiom_rules.specs.Literals.{has_literal, same_literal};
ghost use Rattle.axiom_rules.specs.Parts.{clause_of_parts};

use crate::RuleFault;
use crate::literal::{Atom, Literal};
use crate::part::{Part, after, is, same};
use smallvec::SmallVec;
use std::alloc::{AllocError, Global};

/// The literals of a clause.
pub type Clause = SmallVec<Literal, 8, Global>;

/// A part that a rule writes for each event, or for each of some.
#[derive(Clone, Copy)]
pub enum Each {
    /// Event e is after it.
    After { e: u32 },
    /// It is a first event.
    First,
    /// It is at one instant with event e.
    Same { e: u32 },
    /// It is a witness of node k at event i.
    Wit { k: u32, i: u32 },
    /// It is a gap of node k from event i on.
    Gap { k: u32, i: u32 },
}

impl Each {
    // What is written for an event.
    fn at(self, x: u32) -> Part
        ensures { result ≡ part_at self x }
    {
        match self {
            Each::After { e } => after(e, x),
            Each::First => is(Atom::First { e: x }),
            Each::Same { e } => same(x, e),
            Each::Wit { k, i } => is(Atom::Wit { k, i, j: x }),
            Each::Gap { k, i } => is(Atom::Gap { k, i, m: x }),
        }
    }
}

fn are_equal(literal: &Literal, other: &Literal) -> bool
    ensures { result ≡ same_literal literal.now other.now }
{
    literal == other
}

// Whether a literal stands in a clause.
fn has(clause: &[Literal], literal: &Literal) -> bool
    ensures { result ≡ has_literal clause.now literal.now }
{
    clause.iter().any(|other| are_equal(literal, other))
}

fn push(clause: &mut Clause, literal: Literal) -> Result<(), AllocError>
    ensures ok { OnOk result (clause.new.items ≡ clause.old.items ++ literal ∷ []) }
{
    clause.push(literal)?;
    Ok(())
}

fn add_literal(clause: &mut Clause, literal: Literal) -> Result<(), RuleFault>
    ensures { Answers (with_literal clause.old.items literal) result clause.new.items }
{
    if has(clause.as_slice(), &literal.negated()) {
        return Err(RuleFault::Trivial);
    }
    if has(clause.as_slice(), &literal) {
        return Ok(());
    }
    push(clause, literal)?;
    Ok(())
}

fn add(clause: &mut Clause, part: Part) -> Result<(), RuleFault>
    ensures { Answers (with_part clause.old.items part) result clause.new.items }
{
    match part {
        Part::Says(literal) => add_literal(clause, literal),
        Part::Known(true) => Err(RuleFault::Trivial),
        Part::Known(false) => Ok(()),
    }
}

// Adds parts one after another.
fn add_all(clause: &mut Clause, parts: &[Part]) -> Result<(), RuleFault>
    ensures { Answers (with_parts clause.old.items parts.now) result clause.new.items }
{
    for part in parts {
        add(clause, *part)?;
    }
    Ok(())
}

// Adds a part that speaks of no atom of the clause, without looking for one.
fn add_new(clause: &mut Clause, part: Part) -> Result<(), RuleFault>
    requires { IsNew clause.old.items part }
    ensures { Answers (with_part clause.old.items part) result clause.new.items }
{
    match part {
        Part::Says(literal) => Ok(push(clause, literal)?),
        Part::Known(true) => Err(RuleFault::Trivial),
        Part::Known(false) => Ok(()),
    }
}

// Adds a part for each of so many events to a clause without literals of that kind.
fn add_each(clause: &mut Clause, events: u32, each: Each) -> Result<(), RuleFault>
    requires { AreBefore each 0 clause.old.items }
    ensures { Answers (with_parts clause.old.items (map (part_at each) (range_with_len 0 events))) result clause.new.items }
{
    for x in 0..events {
        add_new(clause, each.at(x))?;
    }
    Ok(())
}

// Adds a part for each of these events to a clause without literals of that kind.
fn add_each_of(clause: &mut Clause, events: &[u32], each: Each) -> Result<(), RuleFault>
    requires rising { AllPairs (λ x y. x < y) events.now }
    requires others { AreBefore each 0 clause.old.items }
    ensures { Answers (with_parts clause.old.items (map (part_at each) events.now)) result clause.new.items }
{
    for x in events {
        add_new(clause, each.at(*x))?;
    }
    Ok(())
}

/// Makes a clause that of parts.
#[tactic(auto, using(crate::proofs::AddingLemmas::clause_grows))]
pub fn write(clause: &mut Clause, parts: &[Part]) -> Result<(), RuleFault>
    ensures { Answers (clause_of_parts parts.now) result clause.new.items }
{
    clause.clear();
    add_all(clause, parts)
}

/// Makes a clause that of parts and a part for each of so many events, in a time that grows with their number: the
/// parts for events are looked for nowhere, since each has an atom of its own, of a kind that the others don't have.
#[tactic(auto, using(crate::proofs::AddingLemmas::clause_fault))]
pub fn write_each(
    clause: &mut Clause,
    parts: &[Part],
    events: u32,
    each: Each,
) -> Result<(), RuleFault>
    requires { list_all (is_other each) parts.now ≡ true }
    ensures { Answers (clause_of_parts (parts.now ++ map (part_at each) (range_with_len 0 events))) result clause.new.items }
{
    clause.clear();
    add_all(clause, parts)?;
    add_each(clause, events, each)
}

/// Makes a clause that of parts and a part for each of these events, in a time that grows with their number.
#[tactic(auto, using(crate::proofs::AddingLemmas::clause_fault))]
pub fn write_each_of(
    clause: &mut Clause,
    parts: &[Part],
    events: &[u32],
    each: Each,
) -> Result<(), RuleFault>
    requires rising { AllPairs (λ x y. x < y) events.now }
    requires others { list_all (is_other each) parts.now ≡ true }
    ensures { Answers (clause_of_parts (parts.now ++ map (part_at each) events.now)) result clause.new.items }
{
    clause.clear();
    add_all(clause, parts)?;
    add_each_of(clause, events, each)
}
