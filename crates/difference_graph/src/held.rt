//! Edges in the order in which they were added, with those that end at each node.

ghost use Rattle.std.specs.Prelude.{◌≡◌, ◌<◌, ◌≤◌, ◌-◌, [], ◌∷◌, ◌++◌, length, take, vec_capacity, IfOk};
ghost use Rattle.neg_cycle.specs.declared.system.TheConstants.{MAX_EDGES};
ghost use Rattle.difference_graph.specs.Incoming.{AreIncoming};

use mt_list::push_within;
use neg_cycle::Edge;
use std::alloc::{AllocError, Global};

/// Edges in order, and where for each node those stand that end there.
///
/// A mark is so many edges from the first on. The mark of the last edge that ends at a node counts
/// that edge too, and is 0 where none does.
#[derive(Drop)]
pub struct Held {
    /// The edges.
    pub edges: Vec<Edge>,
    /// For each node the mark of the last edge that ends there.
    pub last: Vec<u32>,
    /// For each edge the mark of the last edge before it that ends where it does.
    pub before: Vec<u32>,
}

/// No edge over so many nodes, with room for so many edges.
pub fn no_edges(alloc: Global, nodes: usize, capacity: usize) -> Result<Held, AllocError>
    ensures edges { IfOk result (λ held. held.edges.items ≡ []) }
    ensures incoming { IfOk result (λ held. AreIncoming held.edges.items held.last.items held.before.items) }
    ensures nodes { IfOk result (λ held. length held.last.items ≡ nodes) }
    ensures edge_room { IfOk result (λ held. capacity ≤ vec_capacity held.edges) }
    ensures before_room { IfOk result (λ held. capacity ≤ vec_capacity held.before) }
{
    let mut last = Vec::new(alloc);
    last.resize(nodes, 0)?;
    Ok(Held {
        edges: Vec::with_capacity(alloc, capacity)?,
        last,
        before: Vec::with_capacity(alloc, capacity)?,
    })
}

/// Adds an edge at the end.
pub fn hold(held: &mut Held, edge: Edge)
    requires end { edge.to < length held.old.last.items }
    requires incoming { AreIncoming held.old.edges.items held.old.last.items held.old.before.items }
    requires few { length held.old.edges.items < MAX_EDGES }
    requires edge_room { length held.old.edges.items < vec_capacity held.old.edges }
    requires before_room { length held.old.edges.items < vec_capacity held.old.before }
    ensures edges { held.new.edges.items ≡ held.old.edges.items ++ edge ∷ [] }
    ensures incoming { AreIncoming held.new.edges.items held.new.last.items held.new.before.items }
    ensures nodes { length held.new.last.items ≡ length held.old.last.items }
    ensures edge_room { vec_capacity held.old.edges ≤ vec_capacity held.new.edges }
    ensures before_room { vec_capacity held.old.before ≤ vec_capacity held.new.before }
{
    push_within(&mut held.before, held.last[edge.to as usize]);
    held.last[edge.to as usize] = held.before.len() as u32;
    push_within(&mut held.edges, edge);
}

/// Releases the last edge.
pub fn release_last(held: &mut Held)
    requires some { 0 < length held.old.edges.items }
    requires incoming { AreIncoming held.old.edges.items held.old.last.items held.old.before.items }
    ensures edges { held.new.edges.items ≡ take (length held.old.edges.items - 1) held.old.edges.items }
    ensures incoming { AreIncoming held.new.edges.items held.new.last.items held.new.before.items }
    ensures nodes { length held.new.last.items ≡ length held.old.last.items }
    ensures edge_room { vec_capacity held.old.edges ≤ vec_capacity held.new.edges }
    ensures before_room { vec_capacity held.old.before ≤ vec_capacity held.new.before }
{
    let place = held.edges.len() - 1;
    let end = held.edges[place].to;
    held.last[end as usize] = held.before[place];
    held.before.truncate(place);
    held.edges.truncate(place);
}

/// Releases the last edges, so that as many are left as at the mark.
pub fn release_to(held: &mut Held, mark: usize)
    requires mark { mark ≤ length held.old.edges.items }
    requires incoming { AreIncoming held.old.edges.items held.old.last.items held.old.before.items }
    ensures edges { held.new.edges.items ≡ take mark held.old.edges.items }
    ensures incoming { AreIncoming held.new.edges.items held.new.last.items held.new.before.items }
    ensures nodes { length held.new.last.items ≡ length held.old.last.items }
    ensures edge_room { vec_capacity held.old.edges ≤ vec_capacity held.new.edges }
    ensures before_room { vec_capacity held.old.before ≤ vec_capacity held.new.before }
{
    while held.edges.len() > mark {
        release_last(held);
    }
}
