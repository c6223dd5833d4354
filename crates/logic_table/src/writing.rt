//! How words, numbers and atoms are written.

use axiom_rules::Atom;
use std::alloc::Global;
use std::fmt::Display;

/// Adds a line: words, and items with a space before each.
pub fn push_items<T: Display>(
    alloc: Global,
    words: &str,
    items: &[T],
    out: &mut Vec<u8>,
) -> Option<()> {
    out.extend_from_slice(words.as_bytes()).ok()?;
    for item in items {
        let text = format!(in alloc; " {item}").ok()?;
        out.extend_from_slice(text.as_bytes()).ok()?;
    }
    out.push(b'\n').ok()
}

/// Adds the name of an atom and its arguments, to the end of the line.
pub fn push_atom(alloc: Global, atom: Atom, out: &mut Vec<u8>) -> Option<()> {
    match atom {
        Atom::Order { e, f, c } => {
            push_items(alloc, "order", &[i128::from(e), i128::from(f), c], out)
        }
        Atom::Node { k, e } => push_items(alloc, "node", &[k, e], out),
        Atom::First { e } => push_items(alloc, "first", &[e], out),
        Atom::Same { e, x } => push_items(alloc, "same", &[e, x], out),
        Atom::Wit { k, i, j } => push_items(alloc, "wit", &[k, i, j], out),
        Atom::Span { k, i, j } => push_items(alloc, "span", &[k, i, j], out),
        Atom::Gap { k, i, m } => push_items(alloc, "gap", &[k, i, m], out),
    }
}

/// Adds the sign of a sense.
pub fn push_sign(positive: bool, out: &mut Vec<u8>) -> Option<()> {
    out.push(if positive { b'+' } else { b'-' }).ok()
}
