//! The start of a search.

ghost use Rattle.std.specs.Prelude.{◌≡◌, ◌+◌, ◌≤◌, ◌<◌, [], length, All, IfOk, IsTrue};
ghost use Rattle.cdcl_core.specs.Founds.{IsPosed};
ghost use Rattle.cdcl_core.specs.Orders.{AreLinks, HasAllLinks};
ghost use Rattle.cdcl_core.specs.Running.{IsRunWithAny};
ghost use Rattle.cdcl_core.specs.Searching.{IsGround, IsSearch};

use crate::conflict::Theory;
use crate::derived::Derived;
use crate::difference::{graph_of, links_of};
use crate::ground::Ground;
use crate::linked::LinkedLits;
use crate::state::SearchState;
use crate::strategy::Strategy;
use clause_db::Lit;
use difference_graph::Graph;
use formula_arena::{cores_are_cores, nodes_are_subtrees};
use mtl_encode::Problem;
use propagate::{Links, Trail, new_trail_is_in_step, trails_are_in_order};
use std::alloc::{AllocError, Global};

// What a search has of its own before the first conflict: the edges of the atoms, an empty trail, the edges of the
// bounds, and what it chooses by.
#[derive(Drop)]
struct Start {
    links: Links,
    trail: Trail,
    graph: Graph,
    ground: Ground,
    strategy: Strategy,
}

impl Start {
    fn new(alloc: Global, problem: &Problem, assumed: &[Lit]) -> Result<Start, AllocError>
        requires posed { IsPosed problem.now }
        ensures links { IfOk result (λ s. AreLinks problem.now.atoms s.links) }
        ensures all_links { IfOk result (λ s. assumed.now ≡ [] → HasAllLinks problem.now.atoms s.links) }
        ensures vars { IfOk result (λ s. s.trail.vars ≡ length problem.now.atoms) }
        ensures nodes { IfOk result (λ s. s.graph.nodes ≡ problem.now.nodes) }
        ensures room { IfOk result (λ s. length problem.now.edges + length problem.now.atoms ≤ s.graph.capacity) }
        ensures ground { IfOk result (λ s. IsGround problem.now s.ground) }
        ensures run { IfOk result (λ s. IsRunWithAny (length problem.now.atoms) s.links problem.now.edges s.trail s.graph) }
    {
        // The nodes of a formula name each other, so the atoms of the rules are in range.
        cores_are_cores();
        nodes_are_subtrees();
        new_trail_is_in_step();
        let vars = problem.atoms.len();
        let links = links_of(alloc, &problem.atoms, assumed)?;
        let trail = Trail::new(alloc, vars)?;
        trails_are_in_order(&trail);
        let graph = graph_of(alloc, problem.nodes, problem.edges.as_slice(), vars)?;
        let bounds = graph_of(alloc, problem.nodes, problem.edges.as_slice(), 1)?;
        let ground = Ground::new(alloc, problem.nodes, bounds)?;
        let strategy = Strategy::new(alloc, problem)?;
        Ok(Start {
            links,
            trail,
            graph,
            ground,
            strategy,
        })
    }
}

impl SearchState {
    /// Before the first conflict: with an empty trail, the edges of the bounds, and these orders assumed.
    pub fn begin(
        alloc: Global,
        problem: Problem,
        assumed: &[Lit],
    ) -> Result<SearchState, AllocError>
        requires posed { IsPosed problem }
        requires within { All (λ l. l.var < length problem.atoms) assumed.now }
        requires few { length assumed.now ≤ length problem.atoms }
        ensures begun { IfOk result (λ s. IsSearch problem s 0) }
        ensures whole { IfOk result (λ s. assumed.now ≡ [] → IsTrue s.theory.whole) }
    {
        // The nodes of a formula name each other, so the atoms of the rules are in range.
        cores_are_cores();
        nodes_are_subtrees();
        let start = Start::new(alloc, &problem, assumed)?;
        let Start {
            links,
            trail,
            graph,
            ground,
            strategy,
        } = start;
        let Problem {
            db,
            rules,
            atoms,
            bounds,
            edges: _,
            nodes,
        } = problem;
        let mut derived = Derived::begin(alloc, db, rules);
        derived.assume_all(assumed)?;
        Ok(SearchState {
            theory: Theory {
                bounds,
                atoms,
                links,
                nodes,
                whole: assumed.is_empty(),
            },
            trail,
            graph,
            ground,
            linked: LinkedLits::new(alloc),
            derived,
            strategy,
        })
    }
}
