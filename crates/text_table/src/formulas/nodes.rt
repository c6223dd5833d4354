//! What is told of the nodes of formulas.

use crate::telling::name_text;
use formula_arena::{Arena, Core};
use mt_model::{Formula, Interval, Name, NodeId, PropId};
use std::alloc::Global;
use table_case::push_shown;

// Adds a node with an operator between two others.
fn push_timed(
    alloc: Global,
    n: u32,
    operands: (NodeId, NodeId),
    letter: char,
    interval: Interval,
    out: &mut Vec<u8>,
) -> Option<()> {
    let (f, g) = (operands.0.get(), operands.1.get());
    let low = interval.low;
    match interval.high {
        Some(high) => push_shown(
            alloc,
            out,
            format_args!("{n}: {f} {letter}[{low},{high}] {g}"),
        ),
        None => push_shown(alloc, out, format_args!("{n}: {f} {letter}[{low},inf] {g}")),
    }
}

// Adds a node: its number, and its operator with the numbers of its operands, or a proposition with its number.
fn push_node(alloc: Global, n: u32, node: Core, out: &mut Vec<u8>) -> Option<()> {
    match node {
        Core::True => push_shown(alloc, out, format_args!("{n}: true")),
        Core::Prop(p) => push_shown(alloc, out, format_args!("{n}: proposition {}", p.get())),
        Core::Not(f) => push_shown(alloc, out, format_args!("{n}: !{}", f.get())),
        Core::And(f, g) => push_shown(alloc, out, format_args!("{n}: {} & {}", f.get(), g.get())),
        Core::Until(interval, f, g) => push_timed(alloc, n, (f, g), 'U', interval, out),
        Core::Since(interval, f, g) => push_timed(alloc, n, (f, g), 'S', interval, out),
    }
}

// Adds a line for each node from a number on.
fn push_nodes(alloc: Global, arena: &Arena, from: u32, out: &mut Vec<u8>) -> Option<()> {
    for n in from..arena.len() {
        push_node(alloc, n, arena.node(NodeId::new(n)), out)?;
    }
    Some(())
}

/// Adds the nodes that a formula adds to an arena, and the node of the whole.
pub fn push_nodes_of(
    alloc: Global,
    f: &Formula,
    arena: &mut Arena,
    out: &mut Vec<u8>,
) -> Option<()> {
    let nodes = arena.len();
    let root = arena.intern(f).ok()?;
    push_nodes(alloc, arena, nodes, out)?;
    push_shown(alloc, out, format_args!("node {}", root.get()))
}

/// Adds the node of a formula in an arena, or the fault, and how many nodes there are then.
pub fn push_count(alloc: Global, f: &Formula, arena: &mut Arena, out: &mut Vec<u8>) -> Option<()> {
    match arena.intern(f) {
        Ok(root) => {
            let root = root.get();
            push_shown(
                alloc,
                out,
                format_args!("node {root}, {} nodes", arena.len()),
            )
        }
        Err(fault) => push_shown(alloc, out, format_args!("{fault}, {} nodes", arena.len())),
    }
}

// Adds a proposition: its number, its host and its name.
fn push_proposition(
    alloc: Global,
    p: u32,
    host: &Name,
    name: &Name,
    out: &mut Vec<u8>,
) -> Option<()> {
    let host = name_text(host)?;
    let name = name_text(name)?;
    push_shown(alloc, out, format_args!("proposition {p}: {host}.{name}"))
}

/// Adds a line for each proposition.
pub fn push_propositions(alloc: Global, arena: &Arena, out: &mut Vec<u8>) -> Option<()> {
    for p in 0..arena.props() {
        let (host, name) = arena.prop(PropId::new(p));
        push_proposition(alloc, p, host, name, out)?;
    }
    Some(())
}
