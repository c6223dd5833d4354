//! When a search begins anew at level 0.

// How many conflicts come before the first restart, and at most before a later one.
const FIRST: u32 = 100;

const MOST: u32 = 1 << 31;

/// How many conflicts are left until the next restart, and how many lie between it and the one before.
#[derive(Clone, Copy)]
pub struct Restarts {
    left: u32,
    distance: u32,
}

impl Restarts {
    /// Before the first conflict.
    pub fn new() -> Restarts {
        Restarts {
            left: FIRST,
            distance: FIRST,
        }
    }

    /// Counts a conflict: whether the search begins anew after it.
    pub fn count(&mut self) -> bool {
        self.left = self.left.saturating_sub(1);
        if self.left > 0 {
            return false;
        }
        self.distance = self.distance.saturating_add(self.distance / 2).min(MOST);
        self.left = self.distance;
        true
    }
}
