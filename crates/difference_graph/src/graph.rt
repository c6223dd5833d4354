//! Held edges, and numbers that meet them.

ghost use Rattle.std.specs.Prelude.{◌≡◌, ◌↔◌, ◌<◌, ◌≤◌, [], ◌∷◌, ◌++◌, length, take, replicate, pos, All, IfOk, IsTrue};
ghost use Rattle.difference_graph.specs.Gaps.{IsNumber};
ghost use Rattle.neg_cycle.specs.declared.system.TheConstants.{MAX_NODES, MAX_EDGES};
ghost use Rattle.neg_cycle.specs.Systems.{IsEdge, Meets, IsNegativeCycle, VisitsOnce, edge_at, number_of};
ghost use Rattle.difference_graph.specs.declared.push.Push.TheVariants.{Kept, Cycle};
ghost use Rattle.difference_graph.specs.Graphs.{HasSameLimits, HasSolution, IsSolved, AreSmall, IfKept, IfRefused};

use crate::Push;
use crate::gaps::bring_near;
use crate::held::{Held, hold, no_edges, release_last, release_to};
use crate::met::is_met;
use crate::repair::repair;
use crate::work::{Work, no_work};
use neg_cycle::Edge;
use std::alloc::{AllocError, Global};
use std::marker::Model;

/// Edges in the order in which they were added, with a number for each node that meets them all.
/// Only its making allocates.
///
/// Contracts see how many nodes there are, how many edges there is room for, the held edges, the
/// numbers, and the walk of the last refused edge.
#[derive(Drop)]
pub struct Graph {
    held: Held,
    limit: u32,
    current: Vec<i128>,
    work: Work,
}

impl Model for Graph {
    ghost use Rattle.std.specs.Prelude.{length};
    ghost use Rattle.difference_graph.specs.Graphs.{Constraints, IsGraph, HasRoom, less_the_first};

    ghost Value = { Constraints };

    ghost view = { λ g. record { nodes = length g.current.items; capacity = g.limit; edges = g.held.edges.items; numbers = less_the_first g.current.items; cycle = g.work.walk.items } };

    ghost invariant = { λ g. IsGraph g.held.edges.items g.limit g.current.items × HasRoom (length g.current.items) g.limit g.held g.work };
}

impl Graph {
    /// A graph over so many nodes that holds no edge, with room for so many edges.
    pub fn new(alloc: Global, nodes: u32, capacity: u32) -> Result<Graph, AllocError>
        requires some { 0 < nodes }
        requires few_nodes { nodes ≤ MAX_NODES }
        requires few_edges { capacity ≤ MAX_EDGES }
        ensures nodes { IfOk result (λ g. g.nodes ≡ nodes) }
        ensures capacity { IfOk result (λ g. g.capacity ≡ capacity) }
        ensures none { IfOk result (λ g. g.edges ≡ []) }
    {
        let count = nodes as usize;
        Ok(Graph {
            held: no_edges(alloc, count, capacity as usize)?,
            limit: capacity,
            current: zeros(alloc, count)?,
            work: no_work(alloc, count, capacity as usize)?,
        })
    }

    /// A graph over as many nodes as there are numbers that holds no edge, and begins with these numbers, all
    /// moved down alike so that none is above 0. An edge that they meet is added without more work. What its
    /// numbers are no clause says.
    pub fn near(alloc: Global, numbers: &[i128], capacity: u32) -> Result<Graph, AllocError>
        requires some { 0 < length numbers.now }
        requires few_nodes { length numbers.now ≤ MAX_NODES }
        requires few_edges { capacity ≤ MAX_EDGES }
        ensures nodes { IfOk result (λ g. g.nodes ≡ length numbers.now) }
        ensures capacity { IfOk result (λ g. g.capacity ≡ capacity) }
        ensures none { IfOk result (λ g. g.edges ≡ []) }
    {
        let count = numbers.len();
        Ok(Graph {
            held: no_edges(alloc, count, capacity as usize)?,
            limit: capacity,
            current: lowered(alloc, numbers)?,
            work: no_work(alloc, count, capacity as usize)?,
        })
    }

    /// Adds an edge at the end, unless it leaves no numbers that meet all edges.
    pub fn push(&mut self, edge: Edge) -> Push
        requires edge { IsEdge self.old.nodes edge }
        requires room { length self.old.edges < self.old.capacity }
        ensures limits { HasSameLimits self.old self.new }

        // It is kept exactly where the edges with it have a solution, and refused exactly where not.
        ensures kept { (result ≡ Kept) ↔ HasSolution self.old.nodes (self.old.edges ++ edge ∷ []) }
        ensures refused { (result ≡ Cycle) ↔ (HasSolution self.old.nodes (self.old.edges ++ edge ∷ []) → ⊥) }

        ensures added { IfKept result (self.new.edges ≡ self.old.edges ++ edge ∷ []) }
        ensures same { IfRefused result (self.new.edges ≡ self.old.edges) }
        ensures cycle { IfRefused result (IsNegativeCycle (self.old.edges ++ edge ∷ []) self.new.cycle) }
        ensures once { IfRefused result (VisitsOnce (self.old.edges ++ edge ∷ []) self.new.cycle) }

        // An edge that the numbers meet leaves them as they are, and so does a refused one, unless
        // they are far from that of node 0.
        ensures met { Meets self.old.numbers edge → result ≡ Kept }
        ensures still { Meets self.old.numbers edge → self.new.numbers ≡ self.old.numbers }
        ensures restored { IfRefused result (AreSmall self.old.numbers → self.new.numbers ≡ self.old.numbers) }
    {
        if is_met(&self.current, edge) {
            hold(&mut self.held, edge);
            return Push::Kept;
        }
        let place = self.held.edges.len() as u32;
        bring_near(&mut self.current);
        hold(&mut self.held, edge);
        match repair(&self.held, place, &mut self.current, &mut self.work) {
            Push::Kept => Push::Kept,
            Push::Cycle => {
                release_last(&mut self.held);
                Push::Cycle
            }
        }
    }

    /// The walk that the edge closes which the last push refused, by the places of its edges in order. The
    /// number of held edges stands for the refused edge. After any other call that changes the graph nothing
    /// is said of it.
    pub fn cycle(&self) -> &[u32]
        ensures cycle { result.now ≡ self.now.cycle }
    {
        &self.work.walk
    }

    /// The held edge at a place, from 0.
    pub fn edge(&self, place: u32) -> Edge
        requires within { place < length self.now.edges }
        ensures edge { result ≡ edge_at self.now.edges place }
    {
        self.held.edges[place as usize]
    }

    /// How many edges are held.
    pub fn mark(&self) -> u32
        ensures count { result ≡ length self.now.edges }
    {
        self.held.edges.len() as u32
    }

    /// Takes back the last edges, so that as many are left as at the mark.
    pub fn pop_to(&mut self, mark: u32)
        requires within { mark ≤ length self.old.edges }
        ensures limits { HasSameLimits self.old self.new }
        ensures edges { self.new.edges ≡ take mark self.old.edges }
        ensures numbers { self.new.numbers ≡ self.old.numbers }
    {
        release_to(&mut self.held, mark as usize);
    }

    /// Whether the nodes' numbers meet an edge, held or not.
    pub fn meets(&self, edge: Edge) -> bool
        requires edge { IsEdge self.now.nodes edge }
        ensures met { IsTrue result ↔ Meets self.now.numbers edge }
    {
        is_met(&self.current, edge)
    }

    /// The node's number in one solution of the held edges, in which node 0 has 0.
    pub fn potential(&self, node: u32) -> i128
        requires within { node < self.now.nodes }
        ensures number { result ≡ number_of self.now.numbers node }
        ensures solution { IsSolved self.now }
    {
        self.current[node as usize] - self.current[0]
    }
}

/// The held edges of a graph are within its limits and its room, and its numbers meet them all.
pub fn graphs_are_solved(graph: &Graph)
    ensures solution { IsSolved graph.now }
{
    let _ = &graph.held;
}

// So many numbers that are 0.
fn zeros(alloc: Global, count: usize) -> Result<Vec<i128>, AllocError>
    ensures { IfOk result (λ v. v.items ≡ replicate count (pos 0)) }
{
    let mut numbers = Vec::new(alloc);
    numbers.resize(count, 0)?;
    Ok(numbers)
}

// The greatest of 0 and some numbers.
fn greatest(numbers: &[i128]) -> i128 {
    let mut greatest = 0;
    for number in numbers {
        greatest = greatest.max(*number);
    }
    greatest
}

// A number that is lowered by another, and within what a node can have.
fn within(number: i128, by: i128) -> i128
    ensures { IsNumber result }
{
    number.saturating_sub(by).max(-(1 << 112)).min(0)
}

// Numbers, each lowered by the greatest of 0 and them, and within what a node can have.
fn lowered(alloc: Global, numbers: &[i128]) -> Result<Vec<i128>, AllocError>
    ensures count { IfOk result (λ v. length v.items ≡ length numbers.now) }
    ensures numbers { IfOk result (λ v. All IsNumber v.items) }
{
    let by = greatest(numbers);
    let mut list = Vec::new(alloc);
    for number in numbers {
        list.push(within(*number, by))?;
    }
    Ok(list)
}
