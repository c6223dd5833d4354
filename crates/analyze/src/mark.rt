//! Marks of places of a trail, and what they are of.

ghost use Rattle.std.specs.Prelude.{◌↔◌, ◌<◌, length, IsTrue, OnOk};
ghost use Rattle.propagate.specs.Trails.{IsAssigned, IsTrail};
ghost use Rattle.analyze.specs.Marks.{AreAssigned, AreBelow, HasMarkHere, IsMarkedBy, IsPut};

use crate::places::level_at;
use clause_db::{Lit, Var};
use propagate::Trail;
use std::alloc::AllocError;
use std::collections::BTreeSet;

// Marks the place of a variable's literal, if it is before a given one.
fn put(trail: &Trail, var: Var, before: u32, marked: &mut BTreeSet<u32>) -> Result<(), AllocError>
    requires trail { IsTrail trail.now }
    requires assigned { IsAssigned trail.now.entries var }
    ensures put { OnOk result (IsPut trail.now.entries before var marked.old.keys marked.new.keys) }
{
    match trail.place(var) {
        Some(place) if place < before => {
            marked.insert(place)?;
        }
        _ => {}
    }
    Ok(())
}

// Marks those places of a clause's literals that are before a given one.
pub fn mark(
    trail: &Trail,
    clause: &[Lit],
    before: u32,
    marked: &mut BTreeSet<u32>,
) -> Result<(), AllocError>
    requires trail { IsTrail trail.now }
    requires assigned { AreAssigned trail.now.entries clause.now }
    ensures marked { OnOk result (IsMarkedBy trail.now.entries before clause.now marked.old.keys marked.new.keys) }
{
    for lit in clause {
        put(trail, lit.var(), before, marked)?;
    }
    Ok(())
}

// Whether a marked place is of the present level: levels rise along a trail, so the greatest one tells.
pub fn has_mark_here(trail: &Trail, marked: &BTreeSet<u32>) -> bool
    requires trail { IsTrail trail.now }
    requires in_range { AreBelow (length trail.now.entries) marked.now.keys }
    ensures here { IsTrue result ↔ HasMarkHere trail.now marked.now.keys }
{
    match marked.last() {
        None => false,
        Some(place) => level_at(trail, *place) == trail.level(),
    }
}
