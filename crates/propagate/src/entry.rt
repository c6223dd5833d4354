//! What a trail keeps for each literal and for each level.

use clause_db::Lit;

/// A literal that was assigned, the level at which it was, and the clause that made it follow, by its
/// number. A decision has no such clause.
#[derive(Clone, Copy)]
pub struct Entry {
    pub lit: Lit,
    pub level: u32,
    pub reason: Option<u32>,
}

/// Where a level above 0 begins: the place of its first literal on the trail, and how many edges the
/// graph held before.
#[derive(Clone, Copy)]
pub struct Level {
    pub start: u32,
    pub mark: u32,
}
