//! The edges of literals.

ghost use Rattle.std.specs.Prelude.{◌≡◌, ◌<◌, length, replicate, set, IfOk, Some, None};
ghost use Rattle.propagate.specs.Links.{edge_of, edges_at};

use clause_db::{Lit, Var};
use mt_list::push_within;
use neg_cycle::Edge;
use std::alloc::{AllocError, Global};
use std::marker::Model;

/// The edges of variables, which contracts see as a list of a pair or of nothing for each variable:
/// the edge of the positive literal, and that of the negative one.
#[derive(Drop)]
pub struct Links {
    // Where the edges of each variable stand among all edges: most variables have none.
    places: Vec<Option<u32>>,
    edges: Vec<(Edge, Edge)>,
}

impl Model for Links {
    ghost use Rattle.std.specs.Prelude.{List, Option, length, map, vec_capacity};
    ghost use Rattle.neg_cycle.specs.declared.system.Edge.{Edge};
    ghost use Rattle.propagate.specs.LinkPlaces.{ArePlaces, pair_at};

    ghost Value = { List (Option (Edge × Edge)) };

    ghost view = { λ l. map (pair_at l.edges.items) l.places.items };

    ghost invariant = { λ l. ArePlaces l.places.items (length l.edges.items) (vec_capacity l.edges) };
}

impl Links {
    /// So many variables, none of which has edges.
    pub fn new(alloc: Global, vars: u32) -> Result<Links, AllocError>
        ensures none { IfOk result (λ l. l ≡ replicate vars None) }
    {
        Ok(Links {
            places: vec![in alloc; None; vars as usize]?,
            edges: Vec::with_capacity(alloc, vars as usize)?,
        })
    }

    /// Gives the variable's positive literal the edge `yes`, and its negative one the edge `no`, in
    /// place of those that they had.
    pub fn set(&mut self, var: Var, yes: Edge, no: Edge)
        requires in_range { var < length self.old }
        ensures edges { self.new ≡ set self.old var (Some (yes, no)) }
    {
        let at = var.get() as usize;
        match self.places[at] {
            None => {
                let place = self.edges.len() as u32;
                push_within(&mut self.edges, (yes, no));
                self.places[at] = Some(place);
            }
            Some(place) => self.edges[place as usize] = (yes, no),
        }
    }

    /// The edges of the last `set` of the variable, and None where there was none.
    pub fn get(&self, var: Var) -> Option<(Edge, Edge)>
        requires in_range { var < length self.now }
        ensures edges { result ≡ edges_at self.now var }
    {
        match self.places[var.get() as usize] {
            None => None,
            Some(place) => Some(self.edges[place as usize]),
        }
    }

    // The edge of a literal, if it has one.
    pub(crate) fn edge(&self, lit: Lit) -> Option<Edge>
        ensures edge { result ≡ edge_of self.now lit }
    {
        if (lit.var().get() as usize) < self.places.len() {
            match self.get(lit.var()) {
                None => None,
                Some((yes, no)) => Some(if lit.positive() { yes } else { no }),
            }
        } else {
            None
        }
    }
}
