//! The clauses that watch a literal which became false.

ghost use Rattle.std.specs.Prelude.{◌≡◌, ◌≢◌, ◌+◌, ◌<◌, length, IfOk, OnOk, IfSome, IsNone};
ghost use Rattle.propagate.specs.Watching.{AreWatchedOf, IsUnwatched, IsWatcher};
ghost use Rattle.propagate.specs.Trails.{IsTrail, rewatched};
ghost use Rattle.propagate.specs.Reach.{IsAtWork, IsReached};
ghost use Rattle.propagate.specs.Visits.{HasMoved, IsNextFalse, IsRewatched, WasVisited};

use crate::Trail;
use crate::best::best_after;
use crate::linked_clauses::LinkedClauses;
use crate::stop::Stop;
use crate::watch::{Watch, Watcher};
use clause_db::{ClauseRef, Lit};
use difference_graph::Graph;
use std::alloc::AllocError;

// Where the visit of a clause ended: it stayed among the watchers or left them.
#[derive(Clone, Copy)]
pub enum Visit {
    Stayed,
    Moved,
}

impl Trail {
    // Propagates the literal at the head: visits the clauses that watch its negation.
    pub(crate) fn visit_watchers(
        &mut self,
        clauses: &LinkedClauses<'_>,
        graph: &mut Graph,
    ) -> Result<(), Stop>
        requires work { IsAtWork clauses.now self.old graph.old }
        requires more { self.old.propagated < length self.old.entries }
        ensures reached { IsReached clauses.now (self.old, graph.old) result (self.new, graph.new) }
        ensures next { OnOk result (self.new.propagated ≡ self.old.propagated + 1) }
    {
        let lit = self.lit(self.head()).negated();
        let mut place = 0;
        'watchers: while let Some(clause) = self.watcher(lit, place) {
            match self.visit(Watcher { clause, lit, place }, clauses, graph)? {
                Visit::Stayed => place += 1,
                Visit::Moved => {}
            }
        }
        self.advance();
        Ok(())
    }

    // Visits a clause among the watchers of a literal that became false: it stays there where its other
    // watched literal is true since a level not above.
    fn visit(
        &mut self,
        watcher: Watcher,
        clauses: &LinkedClauses<'_>,
        graph: &mut Graph,
    ) -> Result<Visit, Stop>
        requires work { IsAtWork clauses.now self.old graph.old }
        requires next { IsNextFalse self.old watcher.lit }
        requires here { IsWatcher self.old.watching watcher }
        ensures reached { IsReached clauses.now (self.old, graph.old) result (self.new, graph.new) }
        ensures visited { IfOk result (WasVisited self.old self.new watcher) }
    {
        match self.watched_beside(watcher.clause, watcher.lit) {
            None => Ok(Visit::Stayed),
            Some(other) => {
                if self.true_up_to(other, self.level_of(watcher.lit.var())) {
                    Ok(Visit::Stayed)
                } else {
                    self.watch_best(watcher, other, clauses, graph)
                }
            }
        }
    }

    // The other watched literal of a clause, if it watches a literal.
    fn watched_beside(&self, clause: ClauseRef, lit: Lit) -> Option<Lit>
        ensures beside { IfSome result (AreWatchedOf self.now.watching clause lit) }
        ensures none { IsNone result → IsUnwatched self.now.watching clause lit }
    {
        match self.watch(clause) {
            None => None,
            Some(watch) => {
                if watch.first == lit {
                    Some(watch.second)
                } else if watch.second == lit {
                    Some(watch.first)
                } else {
                    None
                }
            }
        }
    }

    // Watches the best literal of a clause beside another one in place of a literal that became false.
    fn watch_best(
        &mut self,
        watcher: Watcher,
        other: Lit,
        clauses: &LinkedClauses<'_>,
        graph: &mut Graph,
    ) -> Result<Visit, Stop>
        requires work { IsAtWork clauses.now self.old graph.old }
        requires next { IsNextFalse self.old watcher.lit }
        requires here { IsWatcher self.old.watching watcher }
        requires both { AreWatchedOf self.old.watching watcher.clause watcher.lit other }
        ensures reached { IsReached clauses.now (self.old, graph.old) result (self.new, graph.new) }
        ensures visited { IfOk result (WasVisited self.old self.new watcher) }
    {
        let Watcher { clause, lit, .. } = watcher;
        let from = self.cursor(clause);
        match best_after(self, clauses.db.lits(clause), other, lit, from) {
            None => unreachable!(),
            Some(best) => {
                let watch = Watch {
                    first: other,
                    second: best.lit,
                };
                self.assign_if_unit(watch, clause, clauses, graph)?;
                Ok(self.move_watch(watcher, watch, best.place)?)
            }
        }
    }

    // Watches two literals of a clause: the first stays, and the second comes in place of one that became false, unless it was
    // false before. The next search begins at a place of the clause.
    fn move_watch(
        &mut self,
        watcher: Watcher,
        watch: Watch,
        cursor: usize,
    ) -> Result<Visit, AllocError>
        requires trail { IsTrail self.old }
        requires in_range { watch.second.var < self.old.vars }
        requires next { IsNextFalse self.old watcher.lit }
        requires here { IsWatcher self.old.watching watcher }
        requires both { AreWatchedOf self.old.watching watcher.clause watcher.lit watch.first }
        requires apart { watch.first ≢ watcher.lit }
        ensures same { self.new ≡ rewatched self.old self.new.watching self.old.propagated }
        ensures trail { IsTrail self.new }
        ensures rewatched { IsRewatched self.old.watching self.new.watching watcher.clause watch }
        ensures moved { IfOk result (HasMoved self.old self.new watcher watch) }
    {
        let Watcher { clause, lit, place } = watcher;
        if self.true_up_to(watch.second.negated(), self.level_of(lit.var())) {
            return Ok(Visit::Stayed);
        }
        self.add_watcher(watch.second, clause)?;
        self.set_watch(clause, watch, cursor);
        self.drop_watcher(lit, place);
        Ok(Visit::Moved)
    }
}
