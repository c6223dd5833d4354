//! A trail that is in step with clauses, edges of variables and a graph.

ghost use Rattle.std.specs.Prelude.{◌≡◌, ◌<◌, length, All, IfSome, IsTrue};
ghost use Rattle.clause_db.specs.declared.lit.Lit.{Lit};
ghost use Rattle.propagate.specs.Steps.{IsLinked};
ghost use Rattle.propagate.specs.Closed.{ClosedAt};
ghost use Rattle.logic_table.specs.Runs.{IsHalted, IsReady};

use clause_db::{ClauseRef, Db, Lit, Var};
use difference_graph::{Graph, Push};
use neg_cycle::{Edge, MAX_NODES, is_system};
use propagate::{
    Links, Reached, Trail, new_trail_is_in_step, room_for_all_is_room, set_links_are_linked,
    step_holds_marks, trails_are_in_order,
};
use std::alloc::Global;

/// The most variables of a run.
const MAX_VARS: u32 = 1000;

/// The edges of a variable's literals.
#[derive(Clone, Copy)]
pub struct Linked {
    pub var: Var,
    pub yes: Edge,
    pub no: Edge,
}

/// A trail, the edges of literals, and the graph that holds those of the trail.
#[derive(Drop)]
pub struct Run {
    pub trail: Trail,
    pub links: Links,
    pub graph: Graph,
}

/// Whether the variables of literals are below a number.
pub fn are_below(lits: &[Lit], vars: u32) -> bool
    ensures { IsTrue result → All (λ l. l.var < vars) lits.now }
{
    lits.iter().all(|lit| lit.var().get() < vars)
}

// Whether those of clauses are.
fn is_over(db: &Db, vars: u32) -> bool
    ensures { IsTrue result → All (All (λ l. l.var < vars)) db.now }
{
    for c in 0..db.len() {
        let clause = ClauseRef::new(c);
        if !are_below(db.lits(clause), vars) {
            return false;
        }
    }
    true
}

// The edges of variables, of which there are so many.
fn links_of(
    alloc: Global,
    trail: &Trail,
    graph: &Graph,
    vars: u32,
    nodes: u32,
    edges: &[Linked],
) -> Option<Links>
    requires vars { trail.now.vars ≡ vars }
    requires nodes { graph.now.nodes ≡ nodes }
    ensures linked { IfSome result (λ links. IsLinked trail.now links graph.now) }
    ensures vars { IfSome result (λ links. length links ≡ vars) }
{
    set_links_are_linked();
    let Ok(mut links) = Links::new(alloc, vars) else {
        return None;
    };
    for linked in edges {
        let Linked { var, yes, no } = *linked;
        if var.get() >= vars || !is_system(nodes, &[yes, no]) {
            return None;
        }
        links.set(var, yes, no);
    }
    Some(links)
}

impl Run {
    /// A run in which nothing is assigned.
    pub fn new(alloc: Global, vars: u32, nodes: u32, db: &Db, edges: &[Linked]) -> Option<Run>
        ensures vars { IfSome result (λ r. r.trail.vars ≡ vars) }
        ensures links { IfSome result (λ r. length r.links ≡ vars) }
        ensures ready { IfSome result (λ r. IsReady db.now r.links r.trail r.graph) }
    {
        new_trail_is_in_step();
        if vars > MAX_VARS || nodes == 0 || nodes > MAX_NODES || !is_over(db, vars) {
            return None;
        }
        let Ok(trail) = Trail::new(alloc, vars) else {
            return None;
        };
        let Ok(graph) = Graph::new(alloc, nodes, vars) else {
            return None;
        };
        let links = links_of(alloc, &trail, &graph, vars, nodes, edges)?;
        Some(Run {
            trail,
            links,
            graph,
        })
    }

    // Assigns what follows.
    fn propagate(&mut self, db: &Db) -> Option<Reached>
        requires ready { IsReady db.now self.old.links self.old.trail self.old.graph }
        ensures vars { self.new.trail.vars ≡ self.old.trail.vars }
        ensures halted { IfSome result (λ r. IsHalted db.now self.new.links self.new.trail self.new.graph r) }
    {
        room_for_all_is_room();
        step_holds_marks();
        trails_are_in_order(&self.trail);
        let Ok(reached) = self.trail.propagate(db, &self.links, &mut self.graph) else {
            return None;
        };
        trails_are_in_order(&self.trail);
        Some(reached)
    }

    // Opens a level with a literal, where nothing is left to propagate, and assigns what follows.
    fn decide(&mut self, db: &Db, lit: Lit) -> Option<Reached>
        requires in_range { lit.var < self.old.trail.vars }
        requires ready { IsReady db.now self.old.links self.old.trail self.old.graph }
        requires closed { ClosedAt self.old.trail db.now (length self.old.trail.levels) }
        ensures vars { self.new.trail.vars ≡ self.old.trail.vars }
        ensures halted { IfSome result (λ r. IsHalted db.now self.new.links self.new.trail self.new.graph r) }
    {
        room_for_all_is_room();
        step_holds_marks();
        trails_are_in_order(&self.trail);
        let None = self.trail.value(lit.var()) else {
            return None;
        };
        match self.trail.decide(lit, &self.links, &mut self.graph) {
            Push::Kept => self.propagate(db),
            Push::Cycle => {
                trails_are_in_order(&self.trail);
                Some(Reached::TheoryConflict(lit))
            }
        }
    }

    /// Assigns what follows, before the first of these decisions and after each, as long as nothing is in conflict.
    pub fn descend(&mut self, db: &Db, decisions: &[Lit]) -> Option<Reached>
        requires in_range { All (λ l. l.var < self.old.trail.vars) decisions.now }
        requires ready { IsReady db.now self.old.links self.old.trail self.old.graph }
        ensures halted { IfSome result (λ r. IsHalted db.now self.new.links self.new.trail self.new.graph r) }
    {
        let mut reached = self.propagate(db)?;
        for lit in decisions {
            match reached {
                Reached::Quiet => reached = self.decide(db, *lit)?,
                stopped => return Some(stopped),
            }
        }
        Some(reached)
    }
}
