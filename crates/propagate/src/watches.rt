//! The watched literals of all clauses that were attached.

ghost use Rattle.std.specs.Prelude.{◌≡◌, ◌+◌, ◌^◌, ◌<◌, ◌≤◌, [], ◌∷◌, ◌++◌, length, set, None, Some, IfSome, IsSome, IsNone, OnOk, OnErr, slice_index_or};
ghost use Rattle.propagate.specs.Watching.{unwatched};

use crate::watch::Watch;
use clause_db::ClauseRef;
use mt_list::push_within;
use std::alloc::{AllocError, Global};
use std::marker::Model;

/// The two watched literals of each clause that was attached, which contracts see as a list of two literals or of nothing for
/// each clause.
#[derive(Drop)]
pub struct Watches {
    pairs: Vec<Option<Watch>>,
    // The clauses of which no two literals are watched.
    short: Vec<ClauseRef>,
    // Where in a clause the next search for a literal to watch begins. Without it long clauses cost the square of their length.
    cursors: Vec<u32>,
}

impl Model for Watches {
    ghost use Rattle.std.specs.Prelude.{◌≡◌, List, Option};
    ghost use Rattle.propagate.specs.declared.watch.Watch.{Watch};
    ghost use Rattle.propagate.specs.Watching.{unwatched};

    ghost Value = { List (Option Watch) };

    ghost view = { λ w. w.pairs.items };

    ghost invariant = { λ w. w.short.items ≡ unwatched w.pairs.items };
}

impl Watches {
    /// No clauses, which takes no memory.
    pub fn new(alloc: Global) -> Watches
        ensures none { result ≡ [] }
    {
        Watches {
            pairs: Vec::new(alloc),
            short: Vec::new(alloc),
            cursors: Vec::new(alloc),
        }
    }

    /// How many clauses there are.
    pub fn len(&self) -> usize
        ensures count { result ≡ length self.now }
    {
        self.pairs.len()
    }

    /// The watched literals of a clause, and None where no two are watched or there is no such clause.
    pub fn get(&self, clause: ClauseRef) -> Option<Watch>
        ensures watch { result ≡ slice_index_or self.now clause None }
    {
        let place = clause.get() as usize;
        if place < self.pairs.len() {
            self.pairs[place]
        } else {
            None
        }
    }

    /// The clause at a place among those of which no two literals are watched, and None behind the last.
    pub fn unwatched(&self, place: usize) -> Option<ClauseRef>
        ensures some { IfSome result (λ c. (place < length (unwatched self.now)) × (slice_index_or (unwatched self.now) place 0 ≡ c)) }
        ensures none { IsNone result → length (unwatched self.now) ≤ place }
        ensures few { IfSome result (λ _. place + 1 < 2 ^ 64) }
    {
        self.short.get(place).copied()
    }

    /// Adds a clause, which is the next one; want of memory leaves them as they were.
    pub fn push(&mut self, clause: ClauseRef, watch: Option<Watch>) -> Result<(), AllocError>
        requires next { clause ≡ length self.old }
        ensures ok { OnOk result (self.new ≡ self.old ++ watch ∷ []) }
        ensures err { OnErr result (self.new ≡ self.old) }
    {
        self.pairs.reserve(1)?;
        self.cursors.push(0)?;
        note(&self.pairs, &mut self.short, clause, watch)?;
        push_within(&mut self.pairs, watch);
        Ok(())
    }

    /// Watches two other literals of a clause, of which two are watched. The next search begins at a place of the clause.
    pub fn set(&mut self, clause: ClauseRef, watch: Watch, cursor: usize)
        requires known { clause < length self.old }
        requires watched { IsSome (slice_index_or self.old clause None) }
        ensures watch { self.new ≡ set self.old clause (Some watch) }
    {
        let at = clause.get() as usize;
        self.pairs[at] = Some(watch);
        if at < self.cursors.len() {
            self.cursors[at] = u32::try_from(cursor).unwrap_or(0);
        }
    }

    /// Where the next search for a literal of the clause begins.
    pub fn cursor(&self, clause: ClauseRef) -> usize {
        let at = clause.get() as usize;
        if at < self.cursors.len() {
            self.cursors[at] as usize
        } else {
            0
        }
    }
}

// Notes the next clause among those of which no two literals are watched, if it is one of them.
fn note(
    pairs: &[Option<Watch>],
    short: &mut Vec<ClauseRef>,
    clause: ClauseRef,
    watch: Option<Watch>,
) -> Result<(), AllocError>
    requires listed { short.old.items ≡ unwatched pairs.now }
    requires next { clause ≡ length pairs.now }
    ensures ok { OnOk result (short.new.items ≡ unwatched (pairs.now ++ watch ∷ [])) }
    ensures err { OnErr result (short.new.items ≡ short.old.items) }
{
    match watch {
        None => short.push(clause)?,
        Some(_) => {}
    }
    Ok(())
}
