//! Order atoms as difference constraints.

ghost use Rattle.std.specs.Prelude.{◌≡◌, ◌+◌, ◌≤◌, ◌<◌, [], length, All, IfOk, false};
ghost use Rattle.neg_cycle.specs.declared.system.TheConstants.{MAX_EDGES, MAX_NODES};
ghost use Rattle.neg_cycle.specs.Systems.{IsSystem};
ghost use Rattle.difference_graph.specs.Graphs.{HasSolution};
ghost use Rattle.cdcl_core.specs.Orders.{AreLinks, HasAllLinks, IsOrderAmong, order_edges as edges_of_order, order_step as step_of_order};

use axiom_rules::{Atom, AtomTable, Literal};
use clause_db::{Lit, Var};
use difference_graph::{Graph, Push};
use mt_model::Step;
use neg_cycle::Edge;
use propagate::Links;
use std::alloc::{AllocError, Global};

/// The edges of an order atom: that it holds, and that it doesn't. No other atom has edges.
pub fn order_edges(atom: Atom) -> Option<(Edge, Edge)>
    requires order { IsOrderAmong MAX_NODES atom }
    ensures edges { result ≡ edges_of_order atom }
{
    match atom {
        Atom::Order { e, f, c } => Some((
            Edge {
                from: e + 1,
                to: f + 1,
                bound: c,
            },
            Edge {
                from: f + 1,
                to: e + 1,
                bound: -c - 1,
            },
        )),
        Atom::Node { .. } | Atom::First { .. } | Atom::Same { .. } => None,
        Atom::Wit { .. } | Atom::Span { .. } | Atom::Gap { .. } => None,
    }
}

/// An order literal as a step of a walk. No other literal is one.
pub fn order_step(literal: Literal) -> Option<Step>
    requires order { IsOrderAmong MAX_NODES literal.atom }
    ensures step { result ≡ step_of_order literal }
{
    match literal.atom {
        Atom::Order { e, f, c } => Some(if literal.positive {
            Step::Order { e, f, c }
        } else {
            Step::Order {
                e: f,
                f: e,
                c: -c - 1,
            }
        }),
        Atom::Node { .. } | Atom::First { .. } | Atom::Same { .. } => None,
        Atom::Wit { .. } | Atom::Span { .. } | Atom::Gap { .. } => None,
    }
}

// Whether the next of these literals is of a variable.
fn is_next(assumed: &[Lit], next: usize, var: Var) -> bool
    ensures some { assumed.now ≡ [] → result ≡ false }
{
    match assumed.get(next) {
        Some(lit) => lit.var() == var,
        None => false,
    }
}

/// The edges of the atoms, by their variables, but for those that are assumed, in the order of their variables.
pub fn links_of(alloc: Global, atoms: &AtomTable, assumed: &[Lit]) -> Result<Links, AllocError>
    requires orders { All (IsOrderAmong MAX_NODES) atoms.now }
    ensures links { IfOk result (AreLinks atoms.now) }
    ensures all { IfOk result (λ links. assumed.now ≡ [] → HasAllLinks atoms.now links) }
{
    let mut links = Links::new(alloc, atoms.len())?;
    let mut next: usize = 0;
    for v in 0..atoms.len() {
        let var = Var::new(v);
        if is_next(assumed, next, var) {
            next = next.saturating_add(1);
        } else if let Some((yes, no)) = order_edges(atoms.atom(var)) {
            links.set(var, yes, no);
        }
    }
    Ok(links)
}

// Numbers that mostly meet these edges: each node stands as late as the edge from it to node 0 lets it.
fn latest(alloc: Global, nodes: u32, edges: &[Edge]) -> Result<Vec<i128>, AllocError>
    ensures count { IfOk result (λ v. length v.items ≡ nodes) }
{
    let mut numbers = vec![in alloc; 0; nodes as usize]?;
    for edge in edges {
        if edge.to == 0
            && let Some(number) = numbers.get_mut(edge.from as usize)
        {
            *number = edge.bound;
        }
    }
    Ok(numbers)
}

/// A graph that holds these edges, which have a solution, with room for as many more as there are variables.
pub fn graph_of(alloc: Global, nodes: u32, edges: &[Edge], vars: u32) -> Result<Graph, AllocError>
    requires some { 0 < nodes }
    requires system { IsSystem nodes edges.now }
    requires room { length edges.now + vars ≤ MAX_EDGES }
    requires solvable { HasSolution nodes edges.now }
    ensures nodes { IfOk result (λ g. g.nodes ≡ nodes) }
    ensures capacity { IfOk result (λ g. g.capacity ≡ length edges.now + vars) }
    ensures edges { IfOk result (λ g. g.edges ≡ edges.now) }
{
    let numbers = latest(alloc, nodes, edges)?;
    let mut graph = Graph::near(alloc, &numbers, edges.len() as u32 + vars)?;
    for edge in edges {
        match graph.push(*edge) {
            Push::Kept => {}
            Push::Cycle => unreachable!(),
        }
    }
    Ok(graph)
}
