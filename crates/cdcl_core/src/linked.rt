//! The literals of a trail that have edges.

ghost use Rattle.std.specs.Prelude.{◌≡◌, ◌-◌, ◌<◌, ◌≤◌, [], length, take, OnOk};
ghost use Rattle.propagate.specs.Trails.{literals};
ghost use Rattle.cdcl_core.specs.Linked.{AreCutTo};
ghost use Rattle.cdcl_core.specs.Orders.{linked};

use clause_db::Lit;
use difference_graph::Graph;
use propagate::{Links, Trail};
use std::alloc::{AllocError, Global};

/// The literals that have an edge among the first of a trail, in the order of assignment: literal n is that of edge n
/// after those of the base. To find one of an edge takes no walk along the trail.
#[derive(Drop)]
pub struct LinkedLits {
    pub lits: Vec<Lit>,
    /// How many literals of the trail were looked at.
    pub seen: u32,
}

impl LinkedLits {
    /// Of none.
    pub fn new(alloc: Global) -> LinkedLits
        ensures none { result.lits.items ≡ [] }
        ensures unseen { result.seen ≡ 0 }
    {
        LinkedLits {
            lits: Vec::new(alloc),
            seen: 0,
        }
    }

    /// Extends the list to all literals of the trail.
    pub fn extend_to(&mut self, trail: &Trail, links: &Links) -> Result<(), AllocError>
        requires vars { length links.now ≡ trail.now.vars }
        requires within { self.old.seen ≤ length trail.now.entries }
        requires linked { self.old.lits.items ≡ linked links.now (literals (take self.old.seen trail.now.entries)) }
        ensures all { OnOk result (self.new.seen ≡ length trail.now.entries) }
        ensures linked { OnOk result (self.new.lits.items ≡ linked links.now (literals trail.now.entries)) }
    {
        for place in self.seen..trail.len() {
            let lit = trail.lit(place);
            if links.get(lit.var()).is_some() {
                self.lits.push(lit)?;
            }
        }
        self.seen = trail.len();
        Ok(())
    }

    /// Leaves those of a trail that went back to so many literals, of which so many have an edge.
    pub fn cut(&mut self, len: u32, held: usize)
        ensures shorter { len < self.old.seen → AreCutTo len held self.old self.new }
        ensures same { self.old.seen ≤ len → (self.new.seen ≡ self.old.seen) × (self.new.lits.items ≡ self.old.lits.items) }
    {
        if len < self.seen {
            self.lits.truncate(held);
            self.seen = len;
        }
    }

    /// Leaves those of a trail that went back, of which the graph holds the edges behind so many of the base.
    pub fn go_back(&mut self, trail: &Trail, graph: &Graph, base: usize)
        ensures shorter { length trail.now.entries < self.old.seen → AreCutTo (length trail.now.entries) (length graph.now.edges - base) self.old self.new }
        ensures same { self.old.seen ≤ length trail.now.entries → (self.new.seen ≡ self.old.seen) × (self.new.lits.items ≡ self.old.lits.items) }
    {
        let edges = graph.mark() as usize;
        self.cut(trail.len(), edges.saturating_sub(base));
    }
}
