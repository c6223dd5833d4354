//! The theory of a search, and what it does where a descent has ended in conflict.

ghost use Rattle.std.specs.Prelude.{◌≡◌, ℕ, ◌+◌, ◌<◌, ◌≤◌, [], false, length, map, All, IfNone, IfOk, IfSome, IsTrue, OnOk};
ghost use Rattle.mtl_encode.specs.declared.problem.Problem.{Problem};
ghost use Rattle.cdcl_core.specs.Searching.{IsMidway, IsSearch, IsStopped};
ghost use Rattle.clause_db.specs.Clauses.{clause_at};
ghost use Rattle.clause_db.specs.Hinted.{HintsAreUsed, HintsRefute};
ghost use Rattle.clause_db.specs.Literals.{HasVarsOnce, negation};
ghost use Rattle.analyze.specs.Asserting.{HasTwoAbove, IsAsserting, IsJump, IsUnitBelow};
ghost use Rattle.cdcl_core.specs.Recording.{IsSettled, cite_at};
ghost use Rattle.cdcl_core.specs.Turns.{HasStoppedIn, IsFalseIn, RefuteMidway};

use crate::descent::Conflict;
use crate::lines::{add_cycle, add_learned, learnt};
use crate::settling::settle_all;
use crate::state::SearchState;
use analyze::{Learned, learn, refute};
use axiom_rules::AtomTable;
use clause_db::ClauseRef;
use mt_model::BoundList;
use proof_log::Lines;
use propagate::{Links, trails_are_in_order};
use std::alloc::{AllocError, Global};

/// What order literals and bounds say of the nodes: the bounds of the log, the atoms by their variables, the
/// edges of the atoms, how many nodes there are, and whether each order atom has its edges.
#[derive(Drop)]
pub struct Theory {
    pub bounds: BoundList,
    pub atoms: AtomTable,
    pub links: Links,
    pub nodes: u32,
    pub whole: bool,
}

// The level to go back to: that of the jump, or 0 where the search begins anew.
fn level_after(anew: bool, jump: u32) -> u32
    ensures { result ≤ jump }
{
    if anew { 0 } else { jump }
}

impl SearchState {
    /// The clause that is false where a descent stopped. That of a refused edge is added first, with its line.
    pub fn conflict_clause(
        &mut self,
        alloc: Global,
        conflict: Conflict,
    ) -> Result<ClauseRef, AllocError>
        requires stopped { HasStoppedIn self.old conflict }
        ensures theory { self.new.theory ≡ self.old.theory }
        ensures midway { IfOk result (λ c. (p : Problem) (n : ℕ) → IsStopped p self.old n conflict → IsMidway p self.new n c) }
    {
        match conflict {
            Conflict::False(clause) => Ok(clause),
            Conflict::Refused(_) => {
                self.linked.extend_to(&self.trail, &self.theory.links)?;
                add_cycle(
                    alloc,
                    &self.trail,
                    &self.theory.links,
                    &self.linked.lits,
                    &self.graph,
                    self.theory.bounds.as_slice(),
                    &self.theory.atoms,
                    &mut self.derived,
                )
            }
        }
    }

    // Writes the lines of the assumed orders among these clauses, which a line is to cite: whether the bounds give all of them.
    fn settle(
        &mut self,
        alloc: Global,
        conflict: ClauseRef,
        hints: &[ClauseRef],
    ) -> Result<bool, AllocError>
        requires conflicted { IsFalseIn self.old conflict }
        requires held { All (λ c. c < length self.old.derived.db) hints.now }
        ensures theory { self.new.theory ≡ self.old.theory }
        ensures trail { self.new.trail ≡ self.old.trail }
        ensures clauses { OnOk result (self.new.derived.db ≡ self.old.derived.db) }
        ensures midway { OnOk result ((p : Problem) (n : ℕ) → IsMidway p self.old n conflict → IsMidway p self.new n conflict) }
        ensures settled { IfOk result (λ done. IsTrue done → All (λ c. IsSettled (cite_at self.new.derived.cites c)) hints.now) }
        ensures whole { IfOk result (λ done. IsTrue self.old.theory.whole → IsTrue done) }
    {
        settle_all(
            alloc,
            &self.theory,
            &mut self.ground,
            &mut self.derived,
            hints,
        )
    }

    /// Learns a clause from a conflict, adds it with its line, and goes back to the level where it is unit, or to
    /// level 0 where the search begins anew: whether the bounds give the assumed orders that the line cites.
    pub fn learn_clause(&mut self, alloc: Global, conflict: ClauseRef) -> Result<bool, AllocError>
        requires level { 0 < length self.old.trail.levels }
        requires conflicted { IsFalseIn self.old conflict }
        ensures theory { self.new.theory ≡ self.old.theory }
        ensures learnt { IfOk result (λ done. IsTrue done → (p : Problem) (n : ℕ) → IsMidway p self.old n conflict → IsSearch p self.new (n + 1)) }
        ensures whole { IfOk result (λ done. IsTrue self.old.theory.whole → IsTrue done) }
    {
        let learned = learn(alloc, &self.trail, &self.derived.db, conflict)?;
        if !self.settle(alloc, conflict, learned.hints.as_slice())? {
            return Ok(false);
        }
        self.take(alloc, conflict, learned)?;
        Ok(true)
    }

    // Adds what was learnt from a conflict with its line, and goes back.
    fn take(
        &mut self,
        alloc: Global,
        conflict: ClauseRef,
        learned: Learned,
    ) -> Result<(), AllocError>
        requires level { 0 < length self.old.trail.levels }
        requires conflicted { IsFalseIn self.old conflict }
        requires asserting { IsAsserting self.old.trail learned.lits }
        requires jump { IsJump self.old.trail.entries learned.lits learned.jump }
        requires variables { All (λ l. l.var < self.old.trail.vars) learned.lits }
        requires once { HasVarsOnce learned.lits }
        requires refute { HintsRefute self.old.derived.db (map negation learned.lits) learned.hints }
        requires used { HintsAreUsed self.old.derived.db learned.lits learned.hints }
        requires below { IsUnitBelow self.old.trail learned.lits }
        requires two_above { (m : ℕ) → m < learned.jump → HasTwoAbove self.old.trail.entries m (clause_at self.old.derived.db conflict) }
        requires settled { All (λ c. IsSettled (cite_at self.old.derived.cites c)) learned.hints }
        ensures theory { self.new.theory ≡ self.old.theory }
        ensures learnt { OnOk result ((p : Problem) (n : ℕ) → IsMidway p self.old n conflict → IsSearch p self.new (n + 1)) }
    {
        // Each atom has one variable.
        let _ = self.theory.atoms.len();
        let anew = self
            .strategy
            .conflict(&self.derived.db, learned.hints.as_slice())?;
        add_learned(alloc, &self.theory.atoms, &learned, &mut self.derived)?;
        self.trail
            .back_to(level_after(anew, learned.jump), &mut self.graph);
        self.linked
            .go_back(&self.trail, &self.graph, self.theory.bounds.len());
        self.strategy.cut(self.trail.len());
        trails_are_in_order(&self.trail);
        Ok(())
    }

    /// Gives the lines out with a last one, whose clause is empty, where a clause is false at level 0, and None where the
    /// bounds don't give an assumed order that the line cites.
    pub fn refuted(
        &mut self,
        alloc: Global,
        conflict: ClauseRef,
    ) -> Result<Option<Lines>, AllocError>
        requires level { self.old.trail.levels ≡ [] }
        requires conflicted { IsFalseIn self.old conflict }
        ensures refuted { IfOk result (λ o. IfSome o (RefuteMidway self.old conflict)) }
        ensures whole { IfOk result (λ o. IfNone o (self.old.theory.whole ≡ false)) }
    {
        let hints = refute(alloc, &self.trail, &self.derived.db, conflict)?;
        if !self.settle(alloc, conflict, &hints)? {
            return Ok(None);
        }
        Ok(Some(self.refuted_by(alloc, conflict, &hints)?))
    }

    // Gives the lines out with a last one, whose clause is empty and which cites these clauses.
    fn refuted_by(
        &mut self,
        alloc: Global,
        conflict: ClauseRef,
        hints: &[ClauseRef],
    ) -> Result<Lines, AllocError>
        requires conflicted { IsFalseIn self.old conflict }
        requires refute { HintsRefute self.old.derived.db [] hints.now }
        requires settled { All (λ c. IsSettled (cite_at self.old.derived.cites c)) hints.now }
        ensures refuted { IfOk result (RefuteMidway self.old conflict) }
    {
        // Each atom has one variable.
        let _ = self.theory.atoms.len();
        let line = learnt(alloc, &self.theory.atoms, &self.derived, &[], hints)?;
        self.derived.lines.push(line)?;
        Ok(self.derived.take_lines(alloc))
    }
}
