//! The walk down the trail that resolves a false clause with the reasons of its literals.

ghost use Rattle.std.specs.Prelude.{ℕ, ◌<◌, length, IfNone, IfOk, IfSome, OnOk};
ghost use Rattle.clause_db.specs.Clauses.{clause_at};
ghost use Rattle.propagate.specs.Trails.{IsTrail};
ghost use Rattle.propagate.specs.Clauses.{HasReasons, IsFalsified};
ghost use Rattle.analyze.specs.Marks.{AreBelow};
ghost use Rattle.analyze.specs.Asserting.{HasHere};
ghost use Rattle.analyze.specs.Resolving.{IsAside, IsAway};
ghost use Rattle.analyze.specs.Working.{HasTaken, IsWorking};

use crate::mark::{has_mark_here, mark};
use crate::places::{level_at, reason_at};
use clause_db::{ClauseRef, Db};
use propagate::Trail;
use std::alloc::{AllocError, Global};
use std::collections::BTreeSet;

// The marked places, those that are set aside for the clause, and the hints, the last one first.
#[derive(Drop)]
pub struct Work {
    pub marked: BTreeSet<u32>,
    pub aside: Vec<u32>,
    pub hints: Vec<ClauseRef>,
}

// The reason by which the literal at a place is resolved away, and None where it is set aside. Only earlier places are marked.
fn resolvent(trail: &Trail, place: u32, marked: &BTreeSet<u32>) -> Option<ClauseRef>
    requires in_range { place < length trail.now.entries }
    requires trail { IsTrail trail.now }
    requires below { AreBelow place marked.now.keys }
    ensures away { IfSome result (IsAway trail.now place marked.now.keys) }
    ensures aside { IfNone result (IsAside trail.now place marked.now.keys) }
{
    let level = level_at(trail, place);
    if level == 0 || (level == trail.level() && has_mark_here(trail, marked)) {
        reason_at(trail, place)
    } else {
        None
    }
}

// Resolves the literal at a place away, or sets it aside, where the place was the greatest marked one.
fn step(trail: &Trail, db: &Db, place: u32, work: &mut Work) -> Result<(), AllocError>
    requires in_range { place < length trail.now.entries }
    requires trail { IsTrail trail.now }
    requires reasons { HasReasons trail.now db.now }
    requires below { AreBelow place work.old.marked.keys }
    ensures work { OnOk result ((c : ℕ) → HasTaken trail.now db.now c place work.old → IsWorking trail.now db.now c place work.new) }
{
    match resolvent(trail, place, &work.marked) {
        Some(reason) => {
            work.hints.push(reason)?;
            mark(trail, db.lits(reason), place, &mut work.marked)?;
        }
        None => work.aside.push(place)?,
    }
    Ok(())
}

// The walk at the trail's end, where the false clause's literals are marked.
fn begin(alloc: Global, trail: &Trail, db: &Db, conflict: ClauseRef) -> Result<Work, AllocError>
    requires trail { IsTrail trail.now }
    requires held { conflict < length db.now }
    requires falsified { IsFalsified trail.now.entries (clause_at db.now conflict) }
    requires here { 0 < length trail.now.levels → HasHere trail.now (clause_at db.now conflict) }
    ensures work { IfOk result (λ w. IsWorking trail.now db.now conflict (length trail.now.entries) w) }
{
    let mut marked = BTreeSet::new(alloc);
    mark(trail, db.lits(conflict), trail.len(), &mut marked)?;
    let mut hints = Vec::new(alloc);
    hints.push(conflict)?;
    Ok(Work {
        marked,
        aside: Vec::new(alloc),
        hints,
    })
}

// The walk at its end, where no place is marked. It goes from each marked place to the next lower one.
pub fn resolve(
    alloc: Global,
    trail: &Trail,
    db: &Db,
    conflict: ClauseRef,
) -> Result<Work, AllocError>
    requires trail { IsTrail trail.now }
    requires reasons { HasReasons trail.now db.now }
    requires held { conflict < length db.now }
    requires falsified { IsFalsified trail.now.entries (clause_at db.now conflict) }
    requires here { 0 < length trail.now.levels → HasHere trail.now (clause_at db.now conflict) }
    ensures work { IfOk result (λ w. IsWorking trail.now db.now conflict 0 w) }
{
    let mut work = begin(alloc, trail, db, conflict)?;
    let mut place = trail.len();
    'walk: while let Some(next) = work.marked.pop_last() {
        place = next;
        step(trail, db, place, &mut work)?;
    }
    Ok(work)
}
