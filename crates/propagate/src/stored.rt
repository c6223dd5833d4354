//! The lists and tables that a trail keeps.

ghost use Rattle.std.specs.Prelude.{◌≡◌, ℕ, ◌+◌, ◌≤◌, length, min, take, IfOk, vec_capacity};
ghost use Rattle.propagate.specs.Trails.{start_of};
ghost use Rattle.propagate.specs.Stored.{AreValues, IsTable};

use crate::entry::{Entry, Level};
use crate::watch::Watchers;
use std::alloc::{AllocError, Global};

// The lesser of two counts.
pub fn lesser(a: u32, b: u32) -> u32
    ensures lesser { result ≡ min a b }
{
    a.min(b)
}

// Where the literals of the present level begin.
pub fn present_start(levels: &[Level]) -> u32
    ensures lowest { length levels.now ≡ 0 → result ≡ 0 }
    ensures above { (j : ℕ) → length levels.now ≡ j + 1 → result ≡ start_of levels.now j }
{
    match levels.last() {
        None => 0,
        Some(level) => level.start,
    }
}

// So many variables, whose literals no clause watches.
pub fn no_watchers(alloc: Global, vars: u32) -> Result<Vec<Watchers>, AllocError>
    ensures count { IfOk result (λ watchers. length watchers.items ≡ vars) }
{
    let mut watchers = Vec::with_capacity(alloc, vars as usize)?;
    for _var in 0..vars {
        watchers.push(Watchers::new(alloc))?;
    }
    Ok(watchers)
}

// Removes the entries from a place on, and their places and values in the tables.
pub fn forget(
    entries: &mut Vec<Entry>,
    places: &mut Vec<Option<u32>>,
    values: &mut Vec<Option<bool>>,
    start: usize,
)
    requires table { IsTable entries.old.items places.old.items }
    requires values { AreValues entries.old.items places.old.items values.old.items }
    requires within { start ≤ length entries.old.items }
    ensures entries { entries.new.items ≡ take start entries.old.items }
    ensures capacity { vec_capacity entries.new ≡ vec_capacity entries.old }
    ensures table { IsTable entries.new.items places.new.items }
    ensures values { AreValues entries.new.items places.new.items values.new.items }
    ensures count { length places.new.items ≡ length places.old.items }
{
    'entries: while entries.len() > start {
        if let Some(entry) = entries.pop() {
            let at = entry.lit.var().get() as usize;
            places[at] = None;
            values[at] = None;
        }
    }
}
