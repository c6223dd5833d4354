//! Walks over the edges for which numbers were lowered.

ghost use Rattle.std.specs.Prelude.{◌≡◌, ◌≢◌, ◌<◌, ◌≤◌, ◌++◌, ◌∷◌, [], length, vec_capacity};
ghost use Rattle.neg_cycle.specs.Systems.{edge_at};
ghost use Rattle.difference_graph.specs.Repairs.{LeadsOn, IsTree, IsTrace};

use mt_list::push_within;
use neg_cycle::Edge;

/// The walk over the edge at a place, and from there over the edges of the tree, to where that edge
/// begins. Of the tree's edges the later ones come first, since each leads to an earlier one.
pub fn trace(edges: &[Edge], order: &[u32], place: u32, walk: &mut Vec<u32>)
    requires place { place < length edges.now }
    requires tree { IsTree edges.now (edge_at edges.now place).from order.now }
    requires leads { LeadsOn edges.now (edge_at edges.now place).from order.now (edge_at edges.now place).to }
    requires room { length order.now < vec_capacity walk.old }
    ensures trace { IsTrace edges.now order.now place walk.new.items }
    ensures room { vec_capacity walk.old ≤ vec_capacity walk.new }
{
    walk.clear();
    push_within(walk, place);
    let mut node = edges[place as usize].to;
    let mut left = order.len();
    while left > 0 {
        left -= 1;
        node = follow(edges, order[left], node, walk);
    }
}

// Goes over the edge at a place, if it begins at the node, and says at which node the walk is then.
fn follow(edges: &[Edge], place: u32, node: u32, walk: &mut Vec<u32>) -> u32
    requires place { place < length edges.now }
    requires room { length walk.old.items < vec_capacity walk.old }
    ensures goes { (edge_at edges.now place).from ≡ node → (walk.new.items ≡ walk.old.items ++ place ∷ []) × (result ≡ (edge_at edges.now place).to) }
    ensures stays { (edge_at edges.now place).from ≢ node → (walk.new.items ≡ walk.old.items) × (result ≡ node) }
    ensures room { vec_capacity walk.old ≤ vec_capacity walk.new }
{
    let edge = edges[place as usize];
    if edge.from == node {
        push_within(walk, place);
        edge.to
    } else {
        node
    }
}
