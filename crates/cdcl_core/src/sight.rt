//! What a search sees when nothing is left to propagate.

ghost use Rattle.std.specs.Prelude.{◌≡◌, length, IfSome};
ghost use Rattle.std.proofs.Props.{props};
ghost use Rattle.neg_cycle.specs.Systems.{IsEdge};
ghost use Rattle.clause_db.specs.declared.lit.Lit.{Lit};
ghost use Rattle.propagate.specs.Links.{edge_of};

use clause_db::{ClauseRef, Db, Lit};
use difference_graph::Graph;
use neg_cycle::Edge;
use propagate::{Links, Trail};

/// The assigned literals, the clauses, and the present timing, which is that of the graph's numbers.
#[derive(Clone, Copy)]
pub struct Sight<'a> {
    pub trail: &'a Trail,
    pub db: &'a Db,
    pub links: &'a Links,
    pub graph: &'a Graph,
    pub vars: u32,
    pub nodes: u32,
    ghost counted: { trail.now.vars ≡ vars },
    ghost sized: { graph.now.nodes ≡ nodes },
    ghost linked: { length links.now ≡ vars },
    ghost edges: { (l : Lit) → IfSome (edge_of links.now l) (IsEdge graph.now.nodes) } by { Prim.hlevel props },
}

impl<'a> Sight<'a> {
    /// The literals of a clause, and none where there is no such clause.
    pub fn lits(&self, clause: ClauseRef) -> &'a [Lit] {
        if clause.get() < self.db.len() {
            self.db.lits(clause)
        } else {
            &[]
        }
    }

    /// Whether a literal is true, and None where it is open.
    pub fn truth(&self, lit: Lit) -> Option<bool> {
        if lit.var().get() >= self.vars {
            return None;
        }
        let value = self.trail.value(lit.var())?;
        Some(value == lit.positive())
    }

    /// The literal at a place of the trail, if there is one.
    pub fn assigned(&self, place: u32) -> Option<Lit> {
        if place < self.trail.len() {
            Some(self.trail.lit(place))
        } else {
            None
        }
    }

    /// The clause from which the literal at a place of the trail followed, if there is one.
    pub fn reason(&self, place: u32) -> Option<ClauseRef> {
        if place < self.trail.len() {
            self.trail.reason(self.trail.lit(place).var())
        } else {
            None
        }
    }

    /// The edge of a literal, if it has one.
    pub fn edge(&self, lit: Lit) -> Option<Edge>
        ensures edge { IfSome result (IsEdge self.now.graph.now.nodes) }
    {
        if lit.var().get() >= self.vars {
            return None;
        }
        let (yes, no) = self.links.get(lit.var())?;
        Some(if lit.positive() { yes } else { no })
    }

    /// Whether the present timing meets an order literal; one without an edge is met where it is assigned and true.
    pub fn meets(&self, lit: Lit) -> bool {
        match self.edge(lit) {
            None => self.truth(lit) == Some(true),
            Some(edge) => self.graph.meets(edge),
        }
    }

    /// By how much the present timing misses an order literal, at most 0 where it meets it; 0 for a literal without an edge.
    pub fn excess(&self, lit: Lit) -> i128 {
        match self.edge(lit) {
            None => 0,
            Some(edge) => self
                .graph
                .potential(edge.from)
                .saturating_sub(self.graph.potential(edge.to))
                .saturating_sub(edge.bound),
        }
    }
}
