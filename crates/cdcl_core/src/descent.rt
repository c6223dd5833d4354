//! Deciding and propagating until nothing is left or something is in conflict.

ghost use Rattle.std.specs.Prelude.{◌≡◌, ℕ, IfOk};
ghost use Rattle.mtl_encode.specs.declared.problem.Problem.{Problem};
ghost use Rattle.cdcl_core.specs.Searching.{IsSearch};
ghost use Rattle.cdcl_core.specs.Turns.{HasDescended, IsUnderWay};

use crate::decision::{Decision, next};
use crate::sight::Sight;
use crate::state::SearchState;
use clause_db::{ClauseRef, Lit};
use difference_graph::Push;
use mt_model::Bits;
use propagate::{Reached, trails_are_in_order};
use std::alloc::{AllocError, Global};

/// What keeps a descent from going on.
#[derive(Clone, Copy, PartialEq, Eq)]
pub enum Conflict {
    /// This clause is false.
    False(ClauseRef),
    /// The edge of this literal, the last assigned one, closes a walk of negative sum.
    Refused(Lit),
}

/// Where a descent ended.
#[derive(Drop)]
pub enum Descent {
    /// These values of the variables satisfy the problem with the graph's numbers.
    Met(Bits),
    /// In conflict.
    Stopped(Conflict),
    /// With each variable assigned, where an order that has no edges may have the other value in the graph's timing.
    Lost,
}

impl SearchState {
    /// Propagates, and decides what the strategy says, until the problem is satisfied, a clause is false, or an edge
    /// is refused.
    pub fn descend(&mut self, alloc: Global) -> Result<Descent, AllocError>
        requires under_way { IsUnderWay self.old }
        ensures theory { self.new.theory ≡ self.old.theory }
        ensures descended { IfOk result (λ descent. (p : Problem) (n : ℕ) → IsSearch p self.old n → HasDescended p self.new n descent) }
    {
        let mut start = 0;
        'decisions: loop {
            let reached = self
                .trail
                .propagate(&self.derived.db, &self.theory.links, &mut self.graph)?;
            trails_are_in_order(&self.trail);
            match reached {
                Reached::Quiet => {}
                Reached::ClauseConflict(clause) => {
                    return Ok(Descent::Stopped(Conflict::False(clause)));
                }
                Reached::TheoryConflict(lit) => {
                    return Ok(Descent::Stopped(Conflict::Refused(lit)));
                }
            }
            let theory = &self.theory;
            let vars = theory.atoms.len();
            let sight = Sight {
                trail: &self.trail,
                db: &self.derived.db,
                links: &theory.links,
                graph: &self.graph,
                vars,
                nodes: theory.nodes,
            };
            match next(alloc, theory, &sight, &mut self.strategy, start)? {
                Decision::Done(values) => return Ok(Descent::Met(values)),
                Decision::Lost => return Ok(Descent::Lost),
                Decision::Decide { lit, start: begin } => {
                    start = begin;
                    match self.trail.decide(lit, &self.theory.links, &mut self.graph) {
                        Push::Kept => {}
                        Push::Cycle => return Ok(Descent::Stopped(Conflict::Refused(lit))),
                    }
                }
            }
        }
    }
}
