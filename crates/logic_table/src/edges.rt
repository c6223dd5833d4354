//! Numbers and edges as texts.

use neg_cycle::Edge;
use std::alloc::Global;
use table_case::{number_of, split_word};

/// An edge by its first end, its last, and its bound.
pub fn edge_of(text: &str) -> Option<Edge> {
    let (from, rest) = split_word(text);
    let (to, bound) = split_word(rest);
    Some(Edge {
        from: number_of(from)?,
        to: number_of(to)?,
        bound: number_of(bound)?,
    })
}

/// A number, and edges.
#[derive(Drop)]
pub struct Numbered {
    pub number: u32,
    pub edges: Vec<Edge>,
}

/// A number and edges, with `; ` before each edge.
pub fn numbered_of(alloc: Global, text: &str) -> Option<Numbered> {
    let mut parts = text.split("; ");
    let number = number_of(parts.next()?)?;
    let mut edges = Vec::new(alloc);
    for part in parts {
        edges.push(edge_of(part)?).ok()?;
    }
    Some(Numbered { number, edges })
}

/// The ends and the bound of an edge.
pub fn numbers_of(edge: Edge) -> [i128; 3] {
    [i128::from(edge.from), i128::from(edge.to), edge.bound]
}

/// Two numbers with a space between them.
pub fn two_of(text: &str) -> Option<(u32, u32)> {
    let (first, second) = split_word(text);
    Some((number_of(first)?, number_of(second)?))
}
