//! What false clauses teach.

ghost use Rattle.std.specs.Prelude.{◌<◌, length};
ghost use Rattle.propagate.specs.Clauses.{HasReasons};
ghost use Rattle.propagate.specs.Closed.{Closed};
ghost use Rattle.propagate.specs.Reach.{IsConflict};

use crate::clauses::{push_lits, push_places};
use crate::writing::push_items;
use analyze::{learn, refute};
use clause_db::{ClauseRef, Db};
use propagate::{Trail, trails_are_in_order};
use std::alloc::Global;

// Adds the clause that a conflict teaches, the level to go back to, and the hints.
fn push_learned(
    alloc: Global,
    trail: &Trail,
    db: &Db,
    conflict: ClauseRef,
    out: &mut Vec<u8>,
) -> Option<()>
    requires reasons { HasReasons trail.now db.now }
    requires closed { Closed trail.now db.now }
    requires conflict { IsConflict trail.now db.now conflict }
    requires level { 0 < length trail.now.levels }
{
    trails_are_in_order(trail);
    let learned = learn(alloc, trail, db, conflict).ok()?;
    push_lits(alloc, "learned", learned.lits.as_slice(), out)?;
    push_items(alloc, "jump", &[learned.jump], out)?;
    push_places(alloc, "hints", learned.hints.as_slice(), out)
}

/// Adds what a false clause teaches: a clause, and at level 0 the hints that refute.
pub fn push_lesson(
    alloc: Global,
    trail: &Trail,
    db: &Db,
    conflict: ClauseRef,
    out: &mut Vec<u8>,
) -> Option<()>
    requires reasons { HasReasons trail.now db.now }
    requires closed { Closed trail.now db.now }
    requires conflict { IsConflict trail.now db.now conflict }
{
    if trail.level() > 0 {
        return push_learned(alloc, trail, db, conflict, out);
    }
    let hints = refute(alloc, trail, db, conflict).ok()?;
    push_places(alloc, "refuted", &hints, out)
}
