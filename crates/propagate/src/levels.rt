//! The levels of a trail: a decision opens one, and going back undoes them.

ghost use Rattle.std.specs.Prelude.{◌≡◌, ◌↔◌, ℕ, ◌<◌, ◌≤◌, List, [], ◌∷◌, ◌++◌, length, take, Option, option_to_list, IfSome, IsNone};
ghost use Rattle.neg_cycle.specs.declared.system.Edge.{Edge};
ghost use Rattle.difference_graph.specs.declared.push.Push.TheVariants.{Kept, Cycle};
ghost use Rattle.difference_graph.specs.Graphs.{HasSameLimits, HasSolution, IfKept, IfRefused};
ghost use Rattle.clause_db.specs.declared.lit.Lit.{Lit};
ghost use Rattle.propagate.specs.Links.{edge_of};
ghost use Rattle.propagate.specs.Trails.{IsUnassigned, cut_to, decided, mark_of};
ghost use Rattle.propagate.specs.Steps.{AreMarksHeld, IsLinked, IsRefused, KeepsStep, LosesLast, RegainsStep};
ghost use Rattle.propagate.specs.Closed.{Closed, ClosedAt};

use crate::unit::push_edge;
use crate::{Links, Trail};
use clause_db::Lit;
use difference_graph::{Graph, Push};

impl Trail {
    /// Opens a level with a literal, and adds its edge where it has one. Takes no memory.
    ///
    /// At `Cycle` the literal is assigned, the graph holds its old edges, and `Graph::cycle` gives
    /// the walk.
    pub fn decide(&mut self, lit: Lit, links: &Links, graph: &mut Graph) -> Push
        requires in_range { lit.var < self.old.vars }
        requires unassigned { IsUnassigned self.old.entries lit.var }
        requires linked { IsLinked self.old links.now graph.old }
        requires room { length graph.old.edges < graph.old.capacity }
        ensures trail { self.new ≡ decided self.old lit (length graph.old.edges) }
        ensures limits { HasSameLimits graph.old graph.new }

        // It is refused exactly where the literal has an edge with which there is no solution.
        ensures no_edge { IsNone (edge_of links.now lit) → result ≡ Kept }
        ensures cycle { IfSome (edge_of links.now lit) (λ e. (result ≡ Cycle) ↔ (HasSolution graph.old.nodes (graph.old.edges ++ e ∷ []) → ⊥)) }

        ensures kept { IfKept result (graph.new.edges ≡ graph.old.edges ++ option_to_list (edge_of links.now lit)) }
        ensures same { IfRefused result (graph.new.edges ≡ graph.old.edges) }
        ensures refused { IfRefused result (IsRefused links.now lit graph.new) }
        ensures in_step { IfKept result ((db : List (List Lit)) → KeepsStep db links.now (self.old, graph.old) (self.new, graph.new)) }
        ensures lacks_last { IfRefused result ((db : List (List Lit)) → LosesLast db links.now (self.old, graph.old) (self.new, graph.new)) }

        // Where nothing was left to propagate, the levels below the new one are closed.
        ensures closed { (db : List (List Lit)) → Closed self.old db → ClosedAt self.old db (length self.old.levels) → Closed self.new db }
    {
        self.open(lit, graph.mark());
        push_edge(links, lit, graph)
    }

    /// Undoes every level above the given one, and its edges. Takes no memory.
    pub fn back_to(&mut self, level: u32, graph: &mut Graph)
        requires level { level ≤ length self.old.levels }
        requires marks { AreMarksHeld self.old graph.old }
        ensures trail { self.new ≡ cut_to level self.old }
        ensures limits { HasSameLimits graph.old graph.new }
        ensures edges { level < length self.old.levels → graph.new.edges ≡ take (mark_of self.old.levels level) graph.old.edges }
        ensures unmoved { level ≡ length self.old.levels → (self.new ≡ self.old) × (graph.new.edges ≡ graph.old.edges) }

        // To be in step is kept, and comes back where an edge was missing and a level is undone.
        ensures in_step { (db : List (List Lit)) (links : List (Option (Edge × Edge))) → KeepsStep db links (self.old, graph.old) (self.new, graph.new) }
        ensures after_refusal { level < length self.old.levels → RegainsStep (self.old, graph.old) (self.new, graph.new) }
        ensures closed { (db : List (List Lit)) → ((m : ℕ) → m < level → ClosedAt self.old db m) → Closed self.new db }
    {
        if level < self.level() {
            graph.pop_to(self.mark(level));
            self.cut(level);
        }
    }
}
