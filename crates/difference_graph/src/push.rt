//! What adding an edge did.

/// Whether the edge is held now.
#[derive(Clone, Copy, PartialEq, Eq)]
pub enum Push {
    /// It is held, after the others.
    Kept,
    /// It isn't held, since it closes a walk of negative sum over the held edges.
    Cycle,
}
