//! The clauses that propagation attaches.

ghost use Rattle.std.specs.Prelude.{◌≡◌, ◌+◌, ◌<◌, ◌≤◌, [], ◌∷◌, ◌++◌, length, OnOk, OnErr, Some};
ghost use Rattle.propagate.specs.Trails.{IsTrail, rewatched};
ghost use Rattle.propagate.specs.Reach.{IsAtWork, IsReached};

use crate::Trail;
use crate::best::best_two;
use crate::linked_clauses::LinkedClauses;
use crate::stop::Stop;
use crate::watch::Watch;
use clause_db::ClauseRef;
use difference_graph::Graph;
use std::alloc::AllocError;

impl Trail {
    // Attaches the clauses that were added since the last call.
    pub(crate) fn attach_new(
        &mut self,
        clauses: &LinkedClauses<'_>,
        graph: &mut Graph,
    ) -> Result<(), Stop>
        requires work { IsAtWork clauses.now self.old graph.old }
        ensures reached { IsReached clauses.now (self.old, graph.old) result (self.new, graph.new) }
        ensures all { OnOk result (length clauses.now.db.now ≤ length self.new.watching.watches) }
    {
        let count = clauses.db.len();
        for c in self.known() as u32..count {
            self.attach_next(ClauseRef::new(c), clauses, graph)?;
        }
        Ok(())
    }

    // Attaches the next clause, and makes its best literal true, if it leaves only that one.
    fn attach_next(
        &mut self,
        clause: ClauseRef,
        clauses: &LinkedClauses<'_>,
        graph: &mut Graph,
    ) -> Result<(), Stop>
        requires work { IsAtWork clauses.now self.old graph.old }
        requires next { clause ≡ length self.old.watching.watches }
        requires held { clause < length clauses.now.db.now }
        ensures reached { IsReached clauses.now (self.old, graph.old) result (self.new, graph.new) }
        ensures one { OnOk result (length self.new.watching.watches ≡ clause + 1) }
    {
        match best_two(self, clauses.db.lits(clause)) {
            None => {
                self.attach(clause, None)?;
                Ok(())
            }
            Some(watch) => {
                self.assign_if_unit(watch, clause, clauses, graph)?;
                self.attach_watched(clause, watch)?;
                Ok(())
            }
        }
    }

    // Attaches the next clause, of which two literals are watched.
    fn attach_watched(&mut self, clause: ClauseRef, watch: Watch) -> Result<(), AllocError>
        requires next { clause ≡ length self.old.watching.watches }
        requires first { watch.first.var < self.old.vars }
        requires second { watch.second.var < self.old.vars }
        ensures same { self.new ≡ rewatched self.old self.new.watching self.old.propagated }
        ensures after { IsTrail self.new }
        ensures ok { OnOk result (self.new.watching.watches ≡ self.old.watching.watches ++ Some watch ∷ []) }
        ensures satisfied { self.new.watching.satisfied ≡ self.old.watching.satisfied }
        ensures err { OnErr result (self.new.watching.watches ≡ self.old.watching.watches) }
    {
        self.add_watcher(watch.first, clause)?;
        self.add_watcher(watch.second, clause)?;
        self.attach(clause, Some(watch))
    }
}
