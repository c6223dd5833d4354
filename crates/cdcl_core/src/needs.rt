//! The literals of a trail that have to be justified.

use crate::heads::Heads;
use crate::sight::Sight;
use std::alloc::{AllocError, Global};

/// The places on a trail of the literals that are no orders, but for those that follow from a clause of the problem
/// whose head they are: that clause justifies them. The search goes round these.
#[derive(Drop)]
pub struct Needs {
    places: Vec<u32>,
    // How many literals of the trail were looked at, and where the round is.
    seen: u32,
    cursor: usize,
}

impl Needs {
    /// Of a trail without literals.
    pub fn new(alloc: Global) -> Needs {
        Needs {
            places: Vec::new(alloc),
            seen: 0,
            cursor: 0,
        }
    }

    /// How many there are.
    pub fn len(&self) -> usize {
        self.places.len()
    }

    /// The one at a place of the list.
    pub fn get(&self, index: usize) -> Option<u32> {
        self.places.get(index).copied()
    }

    /// The one where the round is.
    pub fn current(&self) -> Option<u32> {
        self.get(self.cursor)
    }

    /// Goes on by one.
    pub fn advance(&mut self) {
        self.cursor = self.cursor.saturating_add(1);
        if self.cursor >= self.places.len() {
            self.cursor = 0;
        }
    }

    /// Extends the list to the literals that came to the trail.
    pub fn extend_to(&mut self, sight: Sight<'_>, heads: &Heads) -> Result<(), AllocError> {
        for place in self.seen..sight.trail.len() {
            if is_needed(sight, heads, place) {
                self.places.push(place)?;
            }
        }
        self.seen = sight.trail.len();
        Ok(())
    }

    /// Leaves those of a trail that went back to so many literals.
    pub fn cut(&mut self, len: u32) {
        'places: while let Some(place) = self.places.last() {
            if *place < len {
                break 'places;
            }
            self.places.pop();
        }
        self.seen = self.seen.min(len);
        if self.cursor >= self.places.len() {
            self.cursor = 0;
        }
    }
}

// Whether a literal has to be justified.
fn is_needed(sight: Sight<'_>, heads: &Heads, place: u32) -> bool {
    let Some(lit) = sight.assigned(place) else {
        return false;
    };
    if !heads.is_free(lit) {
        return false;
    }
    match sight.reason(place) {
        None => true,
        Some(clause) => !heads.heads(lit, clause, sight.lits(clause)),
    }
}
