//! Unit propagation, with the edges of what it assigns.

ghost use Rattle.std.specs.Prelude.{◌≡◌, length, IfOk, OnOk, OnErr};
ghost use Rattle.propagate.specs.Trails.{IsUnpropagated};
ghost use Rattle.propagate.specs.Clauses.{AreSettled, HasReasons};
ghost use Rattle.propagate.specs.Watched.{AreAllWatched, AreWatched};
ghost use Rattle.propagate.specs.Best.{AreHighestFrom};
ghost use Rattle.propagate.specs.Steps.{HasRoomFor, IsLinked, IsRefused, KeepsStep, LosesLast};
ghost use Rattle.propagate.specs.Closed.{Closed, ClosedAt};
ghost use Rattle.propagate.specs.Reach.{IfClause, IfQuiet, IfTheory, IsAtWork, IsConflict, IsExtended, IsGrown, IsLast, IsReached, UnlessQuiet, UnlessTheory};

use crate::linked_clauses::LinkedClauses;
use crate::stop::Stop;
use crate::trail::trails_are_in_order;
use crate::{Links, Trail};
use clause_db::{ClauseRef, Db, Lit};
use difference_graph::Graph;
use std::alloc::AllocError;

/// Where propagation ended.
#[derive(Clone, Copy, PartialEq, Eq)]
pub enum Reached {
    /// No clause is false or unit, and the edge of each assigned literal is held.
    Quiet,
    /// This clause is false.
    ClauseConflict(ClauseRef),
    /// The edge of this literal, the last assigned one, closes a walk of negative sum.
    TheoryConflict(Lit),
}

impl Trail {
    /// Assigns what follows from the clauses, with the edges of what it assigns, until nothing does,
    /// a clause is false, or an edge is refused.
    ///
    /// The clauses that were added since its last call are attached first.
    pub fn propagate(
        &mut self,
        db: &Db,
        links: &Links,
        graph: &mut Graph,
    ) -> Result<Reached, AllocError>
        requires reasons { HasReasons self.old db.now }
        requires watched { AreWatched self.old db.now }
        requires closed { Closed self.old db.now }
        requires linked { IsLinked self.old links.now graph.old }
        requires room { HasRoomFor self.old links.now graph.old }
        ensures reasons { HasReasons self.new db.now }
        ensures watched { AreWatched self.new db.now }
        ensures grown { IsGrown self.old self.new }
        ensures edges { IsExtended graph.old graph.new }
        ensures quiet { IfOk result (λ r. IfQuiet r (AreSettled self.new.entries db.now)) }
        ensures clause_conflict { IfOk result (λ r. IfClause r (IsConflict self.new db.now)) }
        ensures theory_conflict { IfOk result (λ r. IfTheory r (λ l. IsLast self.new l × IsRefused links.now l graph.new)) }

        // To be in step is kept, but for the edge that was refused; so at Quiet the edge of each
        // assigned literal is held.
        ensures in_step { IfOk result (λ r. UnlessTheory r (KeepsStep db.now links.now (self.old, graph.old) (self.new, graph.new))) }
        ensures lacks_last { IfOk result (λ r. IfTheory r (λ _. LosesLast db.now links.now (self.old, graph.old) (self.new, graph.new))) }
        ensures memory { OnErr result (KeepsStep db.now links.now (self.old, graph.old) (self.new, graph.new)) }

        // The levels below the present one stay closed, and at Quiet the present one is.
        ensures closed { Closed self.old db.now → Closed self.new db.now }
        ensures closed_at { IfOk result (λ r. IfQuiet r (ClosedAt self.new db.now (length self.new.levels))) }

        // At Quiet each clause of two literals or more is watched.
        ensures every { IfOk result (λ r. IfQuiet r (AreAllWatched self.new db.now)) }

        // At Quiet the clauses that this call attached watch their literals of the highest levels, as Moskewicz et al. (2001) and Eén
        // and Sörensson (2003) choose them.
        ensures highest { IfOk result (λ r. IfQuiet r (AreHighestFrom (length self.old.watching.watches) self.new db.now)) }

        // At Quiet each literal is propagated, and else none of the present level is.
        ensures propagated { IfOk result (λ r. IfQuiet r (self.new.propagated ≡ length self.new.entries)) }
        ensures unpropagated { IfOk result (λ r. UnlessQuiet r (IsUnpropagated self.new)) }
        ensures unpropagated_at_want { OnErr result (IsUnpropagated self.new) }
    {
        trails_are_in_order(self);
        let clauses = LinkedClauses { db, links };
        match self.settle(&clauses, graph) {
            Ok(()) => Ok(Reached::Quiet),
            Err(stop) => {
                self.rewind();
                stop.told()
            }
        }
    }

    // Attaches new clauses, satisfies the short ones, and propagates each literal from the head on.
    fn settle(&mut self, clauses: &LinkedClauses<'_>, graph: &mut Graph) -> Result<(), Stop>
        requires work { IsAtWork clauses.now self.old graph.old }
        ensures reached { IsReached clauses.now (self.old, graph.old) result (self.new, graph.new) }
        ensures settled { OnOk result (AreSettled self.new.entries clauses.now.db.now) }
        ensures every { OnOk result (AreAllWatched self.new clauses.now.db.now) }
        ensures propagated { OnOk result (self.new.propagated ≡ length self.new.entries) }
    {
        self.attach_new(clauses, graph)?;
        self.satisfy_short(clauses, graph)?;
        'literals: while self.head() < self.len() {
            self.visit_watchers(clauses, graph)?;
        }
        Ok(())
    }
}
