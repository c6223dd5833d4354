//! The section on graphs.

ghost use Rattle.std.specs.Prelude.{◌≡◌};

use crate::edges::{edge_of, numbers_of, two_of};
use crate::writing::push_items;
use difference_graph::{Graph, Push};
use neg_cycle::{Edge, MAX_NODES, is_system};
use std::alloc::Global;
use table_case::{number_of, push_line, push_marked, text_of};

/// The most edges of a graph.
const MAX_ROOM: u32 = 1000;

// A graph over so many nodes, with room for so many edges.
#[derive(Drop)]
struct Limited {
    graph: Graph,
    nodes: u32,
    room: u32,
    ghost over: { graph.nodes ≡ nodes },
    ghost within: { graph.capacity ≡ room },
}

impl Limited {
    fn new(alloc: Global, nodes: u32, room: u32) -> Option<Limited> {
        if nodes == 0 || nodes > MAX_NODES || room > MAX_ROOM {
            return None;
        }
        match Graph::new(alloc, nodes, room) {
            Ok(graph) => Some(Limited { graph, nodes, room }),
            Err(_) => None,
        }
    }

    // Adds an edge, if it is one over the nodes and there is room.
    fn push(&mut self, edge: Edge) -> Option<Push> {
        if is_system(self.nodes, &[edge]) && self.graph.mark() < self.room {
            Some(self.graph.push(edge))
        } else {
            None
        }
    }

    // Takes edges back until so many are left, if there are as many.
    fn pop_to(&mut self, mark: u32) -> Option<()> {
        if mark > self.graph.mark() {
            return None;
        }
        self.graph.pop_to(mark);
        Some(())
    }

    // Adds the number of each node.
    fn push_numbers(&self, alloc: Global, out: &mut Vec<u8>) -> Option<()> {
        let mut numbers = Vec::new(alloc);
        for node in 0..self.nodes {
            numbers.push(self.graph.potential(node)).ok()?;
        }
        push_items(alloc, "numbers", &numbers, out)
    }

    // Adds the held edges.
    fn push_held(&self, alloc: Global, out: &mut Vec<u8>) -> Option<()> {
        for place in 0..self.graph.mark() {
            push_items(alloc, "edge", &numbers_of(self.graph.edge(place)), out)?;
        }
        Some(())
    }
}

// Adds whether an edge was kept, or the cycle that it closes.
fn push_pushed(alloc: Global, graph: &Graph, push: Push, out: &mut Vec<u8>) -> Option<()> {
    match push {
        Push::Kept => push_line(out, b"kept"),
        Push::Cycle => push_items(alloc, "refused", graph.cycle(), out),
    }
}

// Adds the edge of a text.
fn push(alloc: Global, graph: &mut Limited, text: &str, out: &mut Vec<u8>) -> Option<()> {
    let edge = edge_of(text)?;
    let push = graph.push(edge)?;
    push_pushed(alloc, &graph.graph, push, out)
}

// Takes edges back until so many are left as a text says.
fn pop(graph: &mut Limited, text: &str, out: &mut Vec<u8>) -> Option<()> {
    let mark = number_of(text)?;
    graph.pop_to(mark)?;
    push_line(out, b"popped")
}

// Does what a text says.
fn step(alloc: Global, graph: &mut Limited, text: &str, out: &mut Vec<u8>) -> Option<()> {
    match text.strip_prefix("pop ") {
        Some(mark) => pop(graph, mark, out),
        None => push(alloc, graph, text, out),
    }
}

// Adds what a graph does that is given by its nodes and its room, and what is done to it.
fn push_steps(alloc: Global, text: &str, out: &mut Vec<u8>) -> Option<()> {
    let mut parts = text.split("; ");
    let (nodes, room) = two_of(parts.next()?)?;
    let mut graph = Limited::new(alloc, nodes, room)?;
    for part in parts {
        step(alloc, &mut graph, part, out)?;
        graph.push_numbers(alloc, out)?;
    }
    graph.push_held(alloc, out)
}

/// Takes in a line, and adds what it asks for.
pub fn take(alloc: Global, mark: u8, text: &[u8], out: &mut Vec<u8>) -> Option<()> {
    match mark {
        b'?' => {
            push_marked(out, mark, text)?;
            push_steps(alloc, text_of(text)?, out)
        }
        _ => Some(()),
    }
}
