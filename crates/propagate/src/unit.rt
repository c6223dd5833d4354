//! The literals of unit clauses, which are assigned with their edges.

ghost use Rattle.std.specs.Prelude.{◌≡◌, ◌↔◌, ◌<◌, ◌≤◌, [], ◌∷◌, ◌++◌, length, Some, option_to_list, Contains, OnOk, IfSome, IsNone};
ghost use Rattle.neg_cycle.specs.Systems.{IsEdge};
ghost use Rattle.difference_graph.specs.declared.push.Push.TheVariants.{Kept, Cycle};
ghost use Rattle.difference_graph.specs.Graphs.{HasSameLimits, HasSolution, IfKept, IfRefused};
ghost use Rattle.hint_refutation.specs.Hints.{LeavesOnly};
ghost use Rattle.clause_db.specs.Literals.{negation};
ghost use Rattle.clause_db.specs.Clauses.{clause_at};
ghost use Rattle.propagate.specs.Links.{edge_of};
ghost use Rattle.propagate.specs.Trails.{IsTrail, IsUnassigned, followed, literals};
ghost use Rattle.propagate.specs.Steps.{IsRefused};
ghost use Rattle.propagate.specs.Reach.{IsAtWork, IsReached};
ghost use Rattle.propagate.specs.Best.{IsBest};
ghost use Rattle.propagate.specs.Visits.{AreShortSatisfied, IsAssignedIfUnit, IsSatisfiedIfShort, IsTrueSinceUnit, IsUnmoved};

use crate::linked_clauses::LinkedClauses;
use crate::stop::Stop;
use crate::watch::Watch;
use crate::{Links, Trail};
use clause_db::{ClauseRef, Lit};
use difference_graph::{Graph, Push};

impl Trail {
    // Assigns a literal of a clause whose other literals are false, unless it is true.
    pub(crate) fn assign_unit(
        &mut self,
        lit: Lit,
        clause: ClauseRef,
        clauses: &LinkedClauses<'_>,
        graph: &mut Graph,
    ) -> Result<(), Stop>
        requires work { IsAtWork clauses.now self.old graph.old }
        requires held { clause < length clauses.now.db.now }
        requires leaves { LeavesOnly negation (literals self.old.entries) (clause_at clauses.now.db.now clause) lit }
        ensures reached { IsReached clauses.now (self.old, graph.old) result (self.new, graph.new) }
        ensures unmoved { IsUnmoved self.old self.new }
        ensures made { OnOk result (Contains (literals self.new.entries) lit) }
        ensures since { OnOk result (IsTrueSinceUnit self.old self.new (clause_at clauses.now.db.now clause) lit) }
    {
        match self.truth(lit) {
            Some(true) => Ok(()),
            Some(false) => Err(Stop::Clause(clause)),
            None => match self.assign(lit, clause, clauses.links, graph) {
                Push::Kept => Ok(()),
                Push::Cycle => Err(Stop::Theory(lit)),
            },
        }
    }

    // Assigns the first of two literals of a clause, if the second, the best one beside it, is false: then all the others are.
    pub(crate) fn assign_if_unit(
        &mut self,
        watch: Watch,
        clause: ClauseRef,
        clauses: &LinkedClauses<'_>,
        graph: &mut Graph,
    ) -> Result<(), Stop>
        requires work { IsAtWork clauses.now self.old graph.old }
        requires held { clause < length clauses.now.db.now }
        requires has { Contains (clause_at clauses.now.db.now clause) watch.first }
        requires best { IsBest self.old.entries (clause_at clauses.now.db.now clause) (Some watch.first) watch.second }
        ensures reached { IsReached clauses.now (self.old, graph.old) result (self.new, graph.new) }
        ensures unmoved { IsUnmoved self.old self.new }
        ensures assigned { OnOk result (IsAssignedIfUnit self.old self.new watch.first watch.second) }
    {
        match self.false_at(watch.second) {
            None => Ok(()),
            Some(_) => self.assign_unit(watch.first, clause, clauses, graph),
        }
    }

    // Satisfies the clauses of fewer than two literals, but for those that count as satisfied. Above level 0 each is satisfied already.
    pub(crate) fn satisfy_short(
        &mut self,
        clauses: &LinkedClauses<'_>,
        graph: &mut Graph,
    ) -> Result<(), Stop>
        requires work { IsAtWork clauses.now self.old graph.old }
        requires known { length clauses.now.db.now ≤ length self.old.watching.watches }
        ensures reached { IsReached clauses.now (self.old, graph.old) result (self.new, graph.new) }
        ensures short { OnOk result (AreShortSatisfied self.new clauses.now.db.now) }
    {
        if self.level() > 0 {
            return Ok(());
        }
        'short: while let Some(clause) = self.next_short() {
            self.satisfy_if_short(clause, clauses, graph)?;
            self.count_satisfied();
        }
        Ok(())
    }

    // Satisfies a clause, if it has fewer than two literals.
    fn satisfy_if_short(
        &mut self,
        clause: ClauseRef,
        clauses: &LinkedClauses<'_>,
        graph: &mut Graph,
    ) -> Result<(), Stop>
        requires work { IsAtWork clauses.now self.old graph.old }
        requires held { clause < length clauses.now.db.now }
        ensures reached { IsReached clauses.now (self.old, graph.old) result (self.new, graph.new) }
        ensures unmoved { IsUnmoved self.old self.new }
        ensures short { OnOk result (IsSatisfiedIfShort self.new (clause_at clauses.now.db.now clause)) }
    {
        match clauses.db.lits(clause) {
            [] => Err(Stop::Clause(clause)),
            [lit] => self.assign_unit(*lit, clause, clauses, graph),
            _ => Ok(()),
        }
    }

    // Assigns a literal that follows from a clause, and adds its edge where it has one.
    fn assign(&mut self, lit: Lit, clause: ClauseRef, links: &Links, graph: &mut Graph) -> Push
        requires in_range { lit.var < self.old.vars }
        requires unassigned { IsUnassigned self.old.entries lit.var }
        requires edge { IfSome (edge_of links.now lit) (IsEdge graph.old.nodes) }
        requires room { IfSome (edge_of links.now lit) (λ _. length graph.old.edges < graph.old.capacity) }
        ensures trail { self.new ≡ followed self.old lit clause }
        ensures limits { HasSameLimits graph.old graph.new }
        ensures kept { IfKept result (graph.new.edges ≡ graph.old.edges ++ option_to_list (edge_of links.now lit)) }
        ensures same { IfRefused result (graph.new.edges ≡ graph.old.edges) }
        ensures refused { IfRefused result (IsRefused links.now lit graph.new) }
        ensures before { IsTrail self.old }
        ensures after { IsTrail self.new }
    {
        self.follow(lit, clause);
        push_edge(links, lit, graph)
    }
}

// Adds the edge of a literal, if it has one.
pub(crate) fn push_edge(links: &Links, lit: Lit, graph: &mut Graph) -> Push
    requires edge { IfSome (edge_of links.now lit) (IsEdge graph.old.nodes) }
    requires room { IfSome (edge_of links.now lit) (λ _. length graph.old.edges < graph.old.capacity) }
    ensures limits { HasSameLimits graph.old graph.new }
    ensures no_edge { IsNone (edge_of links.now lit) → result ≡ Kept }
    ensures cycle { IfSome (edge_of links.now lit) (λ e. (result ≡ Cycle) ↔ (HasSolution graph.old.nodes (graph.old.edges ++ e ∷ []) → ⊥)) }
    ensures kept { IfKept result (graph.new.edges ≡ graph.old.edges ++ option_to_list (edge_of links.now lit)) }
    ensures same { IfRefused result (graph.new.edges ≡ graph.old.edges) }
    ensures refused { IfRefused result (IsRefused links.now lit graph.new) }
{
    match links.edge(lit) {
        None => Push::Kept,
        Some(edge) => graph.push(edge),
    }
}
