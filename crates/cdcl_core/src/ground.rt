//! The edges of the bounds alone, and the walks that they close with one more.

ghost use Rattle.std.specs.Prelude.{◌≡◌, ◌<◌, ◌∷◌, ◌++◌, [], length, false, IfOk, IsTrue};
ghost use Rattle.neg_cycle.specs.Systems.{IsEdge, IsNegativeCycle, VisitsOnce};
ghost use Rattle.neg_cycle.specs.Systems.{IsWithin};
ghost use Rattle.neg_cycle.specs.declared.system.TheConstants.{MAX_BOUND};
ghost use Rattle.cdcl_core.specs.Closing.{AreClosed};
ghost use Rattle.difference_graph.specs.Graphs.{HasSameLimits, HasSolution, IsSolved};

use difference_graph::{Graph, Push, graphs_are_solved};
use neg_cycle::Edge;
use std::alloc::{AllocError, Global};
use std::marker::Model;

/// The edges of the bounds of a log, which have a solution, and the walk that the last edge closed which they refused.
///
/// Contracts see them as a graph.
#[derive(Drop)]
pub struct Ground {
    graph: Graph,
    ways: Ways,
    walk: Vec<u32>,
}

impl Model for Ground {
    ghost use Rattle.difference_graph.specs.Graphs.{Constraints};

    ghost Value = { Constraints };

    ghost view = { λ g. record { nodes = g.graph.nodes; capacity = g.graph.capacity; edges = g.graph.edges; numbers = g.graph.numbers; cycle = g.walk.items } };
}

impl Ground {
    /// The edges that a graph over so many nodes holds.
    pub fn new(alloc: Global, nodes: u32, graph: Graph) -> Result<Ground, AllocError>
        ensures nodes { IfOk result (λ g. g.nodes ≡ graph.nodes) }
        ensures capacity { IfOk result (λ g. g.capacity ≡ graph.capacity) }
        ensures edges { IfOk result (λ g. g.edges ≡ graph.edges) }
    {
        let ways = Ways::new(alloc, nodes, &graph)?;
        Ok(Ground {
            graph,
            ways,
            walk: Vec::new(alloc),
        })
    }

    /// Whether the edges have no solution with one more, which isn't kept. An error is want of memory.
    pub fn refuses(&mut self, edge: Edge) -> Result<bool, AllocError>
        requires edge { IsEdge self.old.nodes edge }
        requires room { length self.old.edges < self.old.capacity }
        ensures limits { HasSameLimits self.old self.new }
        ensures edges { self.new.edges ≡ self.old.edges }
        ensures cycle { IfOk result (λ refused. IsTrue refused → IsNegativeCycle (self.old.edges ++ edge ∷ []) self.new.cycle) }
        ensures once { IfOk result (λ refused. IsTrue refused → VisitsOnce (self.old.edges ++ edge ∷ []) self.new.cycle) }
        ensures solved { IfOk result (λ refused. refused ≡ false → HasSolution self.old.nodes (self.old.edges ++ edge ∷ [])) }
    {
        self.walk.clear();
        let mark = self.graph.mark();
        if let Some(way) = self.ways.back(edge)
            && closes(&self.graph, edge, way)
        {
            self.walk.extend_from_slice(&[mark, way.first, way.second])?;
            return Ok(true);
        }
        match self.graph.push(edge) {
            Push::Kept => {
                self.graph.pop_to(mark);
                Ok(false)
            }
            Push::Cycle => {
                self.walk.extend_from_slice(self.graph.cycle())?;
                Ok(true)
            }
        }
    }

    /// The walk that the edge closes which was refused last, by the places of its edges in order. The number of edges stands
    /// for the refused one.
    pub fn cycle(&self) -> &[u32]
        ensures cycle { result.now ≡ self.now.cycle }
    {
        self.walk.as_slice()
    }
}

/// The edges of the bounds have a solution.
pub fn grounds_are_solved(ground: &Ground)
    ensures solution { IsSolved ground.now }
{
    graphs_are_solved(&ground.graph);
}

/// Places of two edges.
#[derive(Clone, Copy)]
struct Way {
    first: u32,
    second: u32,
}

// Whether an edge closes a walk with two held ones, through three nodes, whose bounds are below 0 together.
fn closes(graph: &Graph, edge: Edge, way: Way) -> bool
    requires edge { IsEdge graph.now.nodes edge }
    ensures cycle { IsTrue result → IsNegativeCycle (graph.now.edges ++ edge ∷ []) (length graph.now.edges ∷ way.first ∷ way.second ∷ []) }
    ensures once { IsTrue result → VisitsOnce (graph.now.edges ++ edge ∷ []) (length graph.now.edges ∷ way.first ∷ way.second ∷ []) }
{
    // The bounds of held edges are within the limit.
    graphs_are_solved(graph);
    let mark = graph.mark();
    if way.first >= mark || way.second >= mark {
        return false;
    }
    are_closed(edge, graph.edge(way.first), graph.edge(way.second))
}

// Whether three edges are a closed walk through three nodes, whose bounds are below 0 together.
fn are_closed(edge: Edge, first: Edge, second: Edge) -> bool
    requires edge { IsWithin MAX_BOUND edge.bound }
    requires first { IsWithin MAX_BOUND first.bound }
    requires second { IsWithin MAX_BOUND second.bound }
    ensures closed { IsTrue result → AreClosed edge first second }
{
    let is_walk = edge.to == first.from && first.to == second.from && second.to == edge.from;
    let is_apart = edge.from != first.from && first.from != second.from && second.from != edge.from;
    is_walk && is_apart && edge.bound + first.bound + second.bound < 0
}

/// For each node the place of an edge from it to node 0, and of one from there to it, where there are such: of several the
/// one of the least bound.
#[derive(Drop)]
struct Ways {
    to_zero: Vec<Option<u32>>,
    from_zero: Vec<Option<u32>>,
}

impl Ways {
    // Those of the edges that a graph over so many nodes holds.
    fn new(alloc: Global, nodes: u32, graph: &Graph) -> Result<Ways, AllocError> {
        let mut ways = Ways {
            to_zero: vec![in alloc; None; nodes as usize]?,
            from_zero: vec![in alloc; None; nodes as usize]?,
        };
        for place in 0..graph.mark() {
            ways.take(graph, place);
        }
        Ok(ways)
    }

    // Takes in the edge at a place.
    fn take(&mut self, graph: &Graph, place: u32)
        requires within { place < length graph.now.edges }
    {
        let edge = graph.edge(place);
        if edge.to == 0 {
            keep(&mut self.to_zero, edge.from, graph, place);
        }
        if edge.from == 0 {
            keep(&mut self.from_zero, edge.to, graph, place);
        }
    }

    // The edges that lead from the end of an edge by way of node 0 to its beginning.
    fn back(&self, edge: Edge) -> Option<Way> {
        let first = place_of(&self.to_zero, edge.to)?;
        let second = place_of(&self.from_zero, edge.from)?;
        Some(Way { first, second })
    }
}

fn place_of(places: &[Option<u32>], node: u32) -> Option<u32> {
    places.get(node as usize).copied()?
}

// Whether the edge at a place is of a smaller bound than another, or there is no other.
fn is_less(graph: &Graph, place: u32, other: Option<u32>) -> bool
    requires within { place < length graph.now.edges }
{
    match other {
        Some(other) if other < graph.mark() => { graph.edge(place).bound < graph.edge(other).bound }
        _ => true,
    }
}

// Keeps a place for a node, where its edge is of a smaller bound than that of the place which is there.
fn keep(places: &mut [Option<u32>], node: u32, graph: &Graph, place: u32)
    requires within { place < length graph.now.edges }
{
    if let Some(held) = places.get_mut(node as usize)
        && is_less(graph, place, *held)
    {
        *held = Some(place);
    }
}
