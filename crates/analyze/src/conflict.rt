//! What a false clause teaches.

ghost use Rattle.std.specs.Prelude.{◌≡◌, ℕ, ◌<◌, ◌≤◌, [], length, map, reverse, IfOk, All, slice_index_or};
ghost use Rattle.clause_db.specs.Literals.{HasVarsOnce, negation};
ghost use Rattle.clause_db.specs.Clauses.{clause_at};
ghost use Rattle.clause_db.specs.Hinted.{HintsAreUsed, HintsRefute};
ghost use Rattle.propagate.specs.Trails.{IsTrail, entry_at};
ghost use Rattle.propagate.specs.Clauses.{HasReasons, IsFalsified};
ghost use Rattle.analyze.specs.Asserting.{EndsIn, HasHere, HasTwoAbove, IsAsserting, IsJump, IsUnitBelow};
ghost use Rattle.analyze.specs.Resolving.{denied};

use crate::places::level_at;
use crate::resolve::resolve;
use clause_db::{ClauseRef, Db, Lit};
use mt_list::ListOf;
use propagate::{Trail, trails_are_in_order};
use std::alloc::{AllocError, Global};

/// Literals in order.
pub type LitList = ListOf<Lit>;

/// Clauses of a `Db` in order.
pub type ClauseRefList = ListOf<ClauseRef>;

/// A clause, the level to go back to, and the clauses that imply it, in order. Its first literal is
/// the one that follows there.
#[derive(Drop)]
pub struct Learned {
    pub lits: LitList,
    pub jump: u32,
    pub hints: ClauseRefList,
}

/// The clause that a conflict teaches, where a clause is false that has a literal of the present
/// level: that of the first unique implication point (Marques-Silva and Sakallah 1996). That it is
/// asserting and the resolvent of its hints is proved; that no nearer point would do, no clause says.
pub fn learn(
    alloc: Global,
    trail: &Trail,
    db: &Db,
    conflict: ClauseRef,
) -> Result<Learned, AllocError>
    requires reasons { HasReasons trail.now db.now }
    requires held { conflict < length db.now }
    requires falsified { IsFalsified trail.now.entries (clause_at db.now conflict) }
    requires level { 0 < length trail.now.levels }
    requires here { HasHere trail.now (clause_at db.now conflict) }
    ensures asserting { IfOk result (λ r. IsAsserting trail.now r.lits) }
    ensures jump { IfOk result (λ r. IsJump trail.now.entries r.lits r.jump) }
    ensures falsified { IfOk result (λ r. IsFalsified trail.now.entries r.lits) }
    ensures variables { IfOk result (λ r. All (λ l. l.var < trail.now.vars) r.lits) }
    ensures once { IfOk result (λ r. HasVarsOnce r.lits) }

    // The clause is the resolvent of the hints.
    ensures refute { IfOk result (λ r. HintsRefute db.now (map negation r.lits) r.hints) }
    ensures used { IfOk result (λ r. HintsAreUsed db.now r.lits r.hints) }
    ensures last { IfOk result (λ r. EndsIn conflict r.hints) }

    // What lower levels leave of the two clauses.
    ensures below { IfOk result (λ r. IsUnitBelow trail.now r.lits) }
    ensures two_above { IfOk result (λ r. (m : ℕ) → m < r.jump → HasTwoAbove trail.now.entries m (clause_at db.now conflict)) }
{
    trails_are_in_order(trail);
    let work = resolve(alloc, trail, db, conflict)?;
    let lits = deny(alloc, trail, &work.aside)?;
    let jump = jump(trail, &work.aside);
    let hints = in_order(work.hints);
    Ok(Learned {
        lits: ListOf::from_vec(lits),
        jump,
        hints: ListOf::from_vec(hints),
    })
}

/// The clauses that imply the empty clause, in order, where a clause is false at level 0.
pub fn refute(
    alloc: Global,
    trail: &Trail,
    db: &Db,
    conflict: ClauseRef,
) -> Result<Vec<ClauseRef>, AllocError>
    requires reasons { HasReasons trail.now db.now }
    requires held { conflict < length db.now }
    requires falsified { IsFalsified trail.now.entries (clause_at db.now conflict) }
    requires level { trail.now.levels ≡ [] }
    ensures refute { IfOk result (λ v. HintsRefute db.now [] v.items) }
    ensures used { IfOk result (λ v. HintsAreUsed db.now [] v.items) }
    ensures last { IfOk result (λ v. EndsIn conflict v.items) }
{
    trails_are_in_order(trail);
    let work = resolve(alloc, trail, db, conflict)?;
    Ok(in_order(work.hints))
}

// The hints from the first one on, given from the last one.
fn in_order(from_last: Vec<ClauseRef>) -> Vec<ClauseRef>
    ensures order { result.items ≡ reverse from_last.items }
{
    let mut hints = from_last;
    hints.reverse();
    hints
}

// The negations of the literals at these places.
fn deny(alloc: Global, trail: &Trail, places: &[u32]) -> Result<Vec<Lit>, AllocError>
    requires in_range { All (λ k. k < length trail.now.entries) places.now }
    ensures literals { IfOk result (λ v. v.items ≡ map (denied trail.now.entries) places.now) }
{
    let mut lits = Vec::new(alloc);
    for place in places {
        lits.push(trail.lit(*place).negated())?;
    }
    Ok(lits)
}

// The level of the second of these places, and 0 where there is none.
fn jump(trail: &Trail, places: &[u32]) -> u32
    requires trail { IsTrail trail.now }
    requires in_range { All (λ k. k < length trail.now.entries) places.now }
    ensures one { length places.now ≤ 1 → result ≡ 0 }
    ensures more { 1 < length places.now → result ≡ (entry_at trail.now.entries (slice_index_or places.now 1 0)).level }
{
    if places.len() > 1 {
        level_at(trail, places[1])
    } else {
        0
    }
}
