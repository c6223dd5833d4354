//! The trail.

ghost use Rattle.std.specs.Prelude.{◌≡◌, ◌↔◌, ◌+◌, ◌^◌, ◌<◌, ◌≤◌, [], length, IfOk, OnOk, OnErr, IfSome, IsNone, IsSome, IsTrue, Contains, slice_index_or, vec_capacity};
ghost use Rattle.clause_db.specs.Literals.{negation};
ghost use Rattle.propagate.specs.Watching.{IsListed, IsNextShort, IsUnwatched, IsWatcherAt, attaching, rewatching, satisfying, unwatched, watch_at, watchers_of, with_watcher, without_watcher};
ghost use Rattle.propagate.specs.Trails.{HasEntry, IsAssigned, IsTrail, IsUnassigned, IsUnpropagated, cut_to, decided, entry_at, followed, literals, mark_of, rewatched};
ghost use Rattle.propagate.specs.Watched.{IsTrueAt, IsTrueUpTo};
ghost use Rattle.propagate.specs.Clauses.{IsTruth};

use crate::entry::{Entry, Level};
use crate::stored::{forget, lesser, no_watchers, present_start};
use crate::watch::{Watch, Watchers};
use crate::watches::Watches;
use clause_db::{ClauseRef, Lit, Var};
use mt_list::push_within;
use std::alloc::{AllocError, Global};
use std::marker::Model;

/// The assigned literals in the order of assignment, each with its level and its reason, and the watched
/// literals of clauses.
#[derive(Drop)]
pub struct Trail {
    entries: Vec<Entry>,
    places: Vec<Option<u32>>,
    // The values of variables, which are asked for most.
    values: Vec<Option<bool>>,
    levels: Vec<Level>,
    watches: Watches,
    watchers: Vec<Watchers>,
    // How many of the clauses of which no two literals are watched, from the first on, count as satisfied: these have a literal that is
    // true since level 0, and needn't be looked at again.
    satisfied: usize,
    // The place of the first literal on the trail that is not yet propagated.
    head: u32,
}

impl Model for Trail {
    ghost use Rattle.std.specs.Prelude.{length, vec_capacity};
    ghost use Rattle.propagate.specs.Watching.{Watching};
    ghost use Rattle.propagate.specs.Trails.{Assigned};
    ghost use Rattle.propagate.specs.Stored.{IsKept};

    ghost Value = { Assigned };

    ghost view = { λ t. record {
      vars = length t.places.items;
      entries = t.entries.items;
      levels = t.levels.items;
      watching = record { watches = t.watches; watchers = t.watchers.items; satisfied = t.satisfied };
      propagated = t.head;
    } };

    ghost invariant = { λ t. IsKept t.entries.items t.places.items t.values.items t.levels.items
        (record { watches = t.watches; watchers = t.watchers.items; satisfied = t.satisfied })
        t.head (vec_capacity t.entries) (vec_capacity t.levels) };
}

impl Trail {
    /// A trail at level 0 over so many variables, with no literal assigned and no clause attached. It
    /// has memory for all that `decide` and `back_to` do.
    pub fn new(alloc: Global, vars: u32) -> Result<Trail, AllocError>
        ensures vars { IfOk result (λ t. t.vars ≡ vars) }
        ensures none { IfOk result (λ t. t.entries ≡ []) }
        ensures level { IfOk result (λ t. t.levels ≡ []) }
        ensures unwatched { IfOk result (λ t. t.watching.watches ≡ []) }
        ensures unpropagated { IfOk result (λ t. t.propagated ≡ 0) }
    {
        Ok(Trail {
            entries: Vec::with_capacity(alloc, vars as usize)?,
            places: vec![in alloc; None; vars as usize]?,
            values: vec![in alloc; None; vars as usize]?,
            levels: Vec::with_capacity(alloc, vars as usize)?,
            watches: Watches::new(alloc),
            watchers: no_watchers(alloc, vars)?,
            satisfied: 0,
            head: 0,
        })
    }

    /// The value of a variable, and None where it is unassigned.
    pub fn value(&self, var: Var) -> Option<bool>
        requires in_range { var < self.now.vars }
        ensures unassigned { IsNone result ↔ IsUnassigned self.now.entries var }
        ensures value { IfSome result (λ b. HasEntry self.now.entries var (λ e. e.lit.positive ≡ b)) }
    {
        self.values[var.get() as usize]
    }

    /// The place of a variable's literal in the order of assignment, and None where the variable is unassigned.
    pub fn place(&self, var: Var) -> Option<u32>
        requires in_range { var < self.now.vars }
        ensures unassigned { IsNone result ↔ IsUnassigned self.now.entries var }
        ensures place { IfSome result (λ k. (k < length self.now.entries) × ((entry_at self.now.entries k).lit.var ≡ var)) }
    {
        self.places[var.get() as usize]
    }

    /// The present level.
    pub fn level(&self) -> u32
        ensures level { result ≡ length self.now.levels }
        ensures trail { IsTrail self.now }
    {
        self.levels.len() as u32
    }

    /// How many literals are assigned.
    pub fn len(&self) -> u32
        ensures count { result ≡ length self.now.entries }
        ensures trail { IsTrail self.now }
    {
        self.entries.len() as u32
    }

    /// The literal at a place in the order of assignment.
    pub fn lit(&self, place: u32) -> Lit
        requires in_range { place < length self.now.entries }
        ensures literal { result ≡ (entry_at self.now.entries place).lit }
    {
        self.entries[place as usize].lit
    }

    /// The level at which a variable was assigned.
    pub fn level_of(&self, var: Var) -> u32
        requires assigned { IsAssigned self.now.entries var }
        ensures level { HasEntry self.now.entries var (λ e. e.level ≡ result) }
    {
        self.entry_of(var).level
    }

    /// The clause from which a variable's literal followed, and None for a decision.
    pub fn reason(&self, var: Var) -> Option<ClauseRef>
        requires assigned { IsAssigned self.now.entries var }
        ensures reason { HasEntry self.now.entries var (λ e. e.reason ≡ result) }
    {
        self.entry_of(var).reason.map(ClauseRef::new)
    }

    // Whether a literal is true, and None where its variable is unassigned.
    pub(crate) fn truth(&self, lit: Lit) -> Option<bool>
        requires in_range { lit.var < self.now.vars }
        ensures truth { IsTruth self.now.entries lit result }
    {
        match self.value(lit.var()) {
            None => None,
            Some(value) => Some(value == lit.positive()),
        }
    }

    // Assigns a literal of the present level that follows from a clause.
    pub(crate) fn follow(&mut self, lit: Lit, clause: ClauseRef)
        requires in_range { lit.var < self.old.vars }
        requires unassigned { IsUnassigned self.old.entries lit.var }
        ensures trail { self.new ≡ followed self.old lit clause }
        ensures before { IsTrail self.old }
        ensures after { IsTrail self.new }
    {
        let place = self.len();
        let present = self.level();
        push_within(
            &mut self.entries,
            Entry {
                lit,
                level: present,
                reason: Some(clause.get()),
            },
        );
        let at = lit.var().get() as usize;
        self.places[at] = Some(place);
        self.values[at] = Some(lit.positive());
    }

    // Opens a level with a literal, where the graph holds so many edges.
    pub(crate) fn open(&mut self, lit: Lit, mark: u32)
        requires in_range { lit.var < self.old.vars }
        requires unassigned { IsUnassigned self.old.entries lit.var }
        ensures trail { self.new ≡ decided self.old lit mark }
        ensures before { IsTrail self.old }
        ensures after { IsTrail self.new }
    {
        let start = self.len();
        let level = self.level();
        push_within(
            &mut self.entries,
            Entry {
                lit,
                level: level + 1,
                reason: None,
            },
        );
        push_within(&mut self.levels, Level { start, mark });
        let at = lit.var().get() as usize;
        self.places[at] = Some(start);
        self.values[at] = Some(lit.positive());
    }

    // How many edges the graph held when the level above this one began.
    pub(crate) fn mark(&self, level: u32) -> u32
        requires within { level < length self.now.levels }
        ensures mark { result ≡ mark_of self.now.levels level }
    {
        self.levels[level as usize].mark
    }

    // Removes all levels above this one.
    pub(crate) fn cut(&mut self, level: u32)
        requires within { level < length self.old.levels }
        ensures trail { self.new ≡ cut_to level self.old }
        ensures before { IsTrail self.old }
        ensures after { IsTrail self.new }
    {
        let start = self.levels[level as usize].start;
        forget(
            &mut self.entries,
            &mut self.places,
            &mut self.values,
            start as usize,
        );
        self.levels.truncate(level as usize);
        self.head = lesser(self.head, start);
    }

    // The level at which a literal became false, and None where it isn't.
    pub(crate) fn false_at(&self, lit: Lit) -> Option<u32>
        requires in_range { lit.var < self.now.vars }
        ensures open { IsNone result → Contains (literals self.now.entries) (negation lit) → ⊥ }
        ensures level { IfSome result (IsTrueAt self.now.entries (negation lit)) }
    {
        trails_are_in_order(self);
        match self.truth(lit) {
            Some(false) => Some(self.level_of(lit.var())),
            Some(true) => None,
            None => None,
        }
    }

    // Whether a literal is true since that level or a lower one.
    pub(crate) fn true_up_to(&self, lit: Lit, level: u32) -> bool
        requires in_range { lit.var < self.now.vars }
        ensures since { IsTrue result ↔ IsTrueUpTo self.now.entries level lit }
    {
        trails_are_in_order(self);
        match self.truth(lit) {
            Some(true) => self.reached_by(lit, level),
            Some(false) => false,
            None => false,
        }
    }

    // Whether a true literal is so since that level or a lower one.
    fn reached_by(&self, lit: Lit, level: u32) -> bool
        requires held { Contains (literals self.now.entries) lit }
        ensures since { IsTrue result ↔ IsTrueUpTo self.now.entries level lit }
    {
        if self.level() <= level {
            return true;
        }
        self.level_of(lit.var()) <= level
    }

    // How many clauses were attached.
    pub(crate) fn known(&self) -> usize
        ensures known { result ≡ length self.now.watching.watches }
    {
        self.watches.len()
    }

    // The watched literals of a clause, if it was attached and has two.
    pub(crate) fn watch(&self, clause: ClauseRef) -> Option<Watch>
        ensures watch { result ≡ watch_at self.now.watching clause }
    {
        self.watches.get(clause)
    }

    // Where in a clause the next search for a literal to watch begins.
    pub(crate) fn cursor(&self, clause: ClauseRef) -> usize {
        self.watches.cursor(clause)
    }

    // The first clause of which no two literals are watched and that doesn't count as satisfied, and None behind the last.
    pub(crate) fn next_short(&self) -> Option<ClauseRef>
        ensures some { IfSome result (IsNextShort self.now.watching) }
        ensures none { IsNone result → length (unwatched self.now.watching.watches) ≤ self.now.watching.satisfied }
        ensures few { IfSome result (λ _. self.now.watching.satisfied + 1 < 2 ^ 64) }
    {
        self.watches.unwatched(self.satisfied)
    }

    // Counts that clause as satisfied too.
    pub(crate) fn count_satisfied(&mut self)
        requires more { self.old.watching.satisfied < length (unwatched self.old.watching.watches) }
        requires few { self.old.watching.satisfied + 1 < 2 ^ 64 }
        ensures trail { self.new ≡ rewatched self.old (satisfying self.old.watching (self.old.watching.satisfied + 1)) self.old.propagated }
        ensures after { IsTrail self.new }
    {
        self.satisfied += 1;
    }

    // The clause at a place among the watchers of a literal, and None behind the last.
    pub(crate) fn watcher(&self, lit: Lit, place: usize) -> Option<ClauseRef>
        requires in_range { lit.var < self.now.vars }
        ensures some { IfSome result (IsWatcherAt self.now.watching lit place) }
        ensures none { IsNone result → length (watchers_of self.now.watching lit) ≤ place }
        ensures few { IfSome result (λ _. place + 1 < 2 ^ 64) }
    {
        self.watchers[lit.var().get() as usize].get(lit.positive(), place)
    }

    // Adds a clause to the watchers of a literal; want of memory leaves them as they were.
    pub(crate) fn add_watcher(&mut self, lit: Lit, clause: ClauseRef) -> Result<(), AllocError>
        requires in_range { lit.var < self.old.vars }
        ensures ok { OnOk result (self.new ≡ rewatched self.old (with_watcher self.old.watching lit clause) self.old.propagated) }
        ensures err { OnErr result (self.new ≡ self.old) }
        ensures before { IsTrail self.old }
        ensures after { IsTrail self.new }
    {
        self.watchers[lit.var().get() as usize].push(lit.positive(), clause)
    }

    // Removes the clause at a place from the watchers of a literal that it no longer watches.
    pub(crate) fn drop_watcher(&mut self, lit: Lit, place: usize)
        requires in_range { lit.var < self.old.vars }
        requires within { place < length (watchers_of self.old.watching lit) }
        requires unwatched { IsUnwatched self.old.watching (slice_index_or (watchers_of self.old.watching lit) place 0) lit }
        ensures trail { self.new ≡ rewatched self.old (without_watcher self.old.watching lit place) self.old.propagated }
        ensures before { IsTrail self.old }
        ensures after { IsTrail self.new }
    {
        self.watchers[lit.var().get() as usize].remove(lit.positive(), place);
    }

    // Attaches a clause that has no two literals, or stands among the watchers of two.
    pub(crate) fn attach(
        &mut self,
        clause: ClauseRef,
        watch: Option<Watch>,
    ) -> Result<(), AllocError>
        requires next { clause ≡ length self.old.watching.watches }
        requires listed { IfSome watch (λ p. IsListed self.old.watching (length self.old.watching.watches) p) }
        ensures ok { OnOk result (self.new ≡ rewatched self.old (attaching self.old.watching watch) self.old.propagated) }
        ensures err { OnErr result (self.new ≡ self.old) }
        ensures before { IsTrail self.old }
        ensures after { IsTrail self.new }
    {
        self.watches.push(clause, watch)
    }

    // Watches two other literals of a clause, among whose watchers it stands. The next search begins at a place of the clause.
    pub(crate) fn set_watch(&mut self, clause: ClauseRef, watch: Watch, cursor: usize)
        requires known { clause < length self.old.watching.watches }
        requires watched { IsSome (watch_at self.old.watching clause) }
        requires listed { IsListed self.old.watching clause watch }
        ensures trail { self.new ≡ rewatched self.old (rewatching self.old.watching clause watch) self.old.propagated }
        ensures before { IsTrail self.old }
        ensures after { IsTrail self.new }
    {
        self.watches.set(clause, watch, cursor);
    }

    // The place of the next literal to propagate: those before it are.
    pub(crate) fn head(&self) -> u32
        ensures head { result ≡ self.now.propagated }
    {
        self.head
    }

    // Moves the head behind the literal that was propagated.
    pub(crate) fn advance(&mut self)
        requires more { self.old.propagated < length self.old.entries }
        ensures trail { self.new ≡ rewatched self.old self.old.watching (self.old.propagated + 1) }
        ensures after { IsTrail self.new }
    {
        self.head += 1;
    }

    // Moves the head back before the literals of the present level.
    pub(crate) fn rewind(&mut self)
        ensures trail { self.new ≡ rewatched self.old self.old.watching self.new.propagated }
        ensures unpropagated { IsUnpropagated self.new }
        ensures fewer { self.new.propagated ≤ self.old.propagated }
        ensures before { IsTrail self.old }
        ensures after { IsTrail self.new }
    {
        self.head = lesser(self.head, present_start(&self.levels));
    }

    // The entry of a variable.
    fn entry_of(&self, var: Var) -> Entry
        requires assigned { IsAssigned self.now.entries var }
        ensures entry { HasEntry self.now.entries var (λ e. e ≡ result) }
    {
        match self.places[var.get() as usize] {
            None => unreachable!(),
            Some(place) => self.entries[place as usize],
        }
    }
}

/// The variables on a trail are in range, none is assigned twice, and the levels lie in order.
pub fn trails_are_in_order(trail: &Trail)
    ensures trail { IsTrail trail.now }
{
    let _ = &trail.entries;
}
