//! The clauses of the problem by their heads.

ghost use Rattle.std.specs.Prelude.{◌^◌, ◌<◌};

use clause_db::{ClauseRef, Db, Lit, Var};
use std::alloc::{AllocError, Global};

/// The clauses of each literal that is their head. The head of a clause is the first of its literals, as its rule
/// writes them, that is about more than times, or else the first that is no order: what the other literals have to be
/// where it is false.
#[derive(Drop)]
pub struct Heads {
    // Where the clauses of each literal end, and all of these.
    ends: Vec<u32>,
    clauses: Vec<ClauseRef>,
    // Of each variable whether it stands negated in a clause of which it isn't the head.
    denied: Vec<bool>,
    // How many clauses the problem has, how many of the first variables are orders, and how many are about times alone.
    problem: u32,
    orders: u32,
    timed: u32,
}

// The place of a literal among all.
fn place_of(lit: Lit) -> usize
    ensures few { result < 2 ^ 33 }
{
    let place = 2 * lit.var().get() as usize;
    if lit.positive() { place } else { place + 1 }
}

// Adds one to the number at a place, if there is such a place, and gives the number before.
fn count_up(counts: &mut Vec<u32>, place: usize) -> u32 {
    match counts.get_mut(place) {
        None => 0,
        Some(count) => {
            let before = *count;
            *count = before.saturating_add(1);
            before
        }
    }
}

// Turns the numbers of clauses into sums: where the clauses of each literal begin.
fn add_up(counts: &mut Vec<u32>) {
    let mut sum: u32 = 0;
    for count in counts.iter_mut() {
        sum = sum.saturating_add(*count);
        *count = sum;
    }
}

impl Heads {
    /// The heads of all clauses over so many variables, of which the first so many are orders, and so many about times
    /// alone.
    pub fn new(
        alloc: Global,
        db: &Db,
        vars: u32,
        orders: u32,
        timed: u32,
    ) -> Result<Heads, AllocError> {
        let mut heads = Heads {
            ends: vec![in alloc; 0; 2 * vars as usize + 1]?,
            clauses: vec![in alloc; ClauseRef::new(0); db.len() as usize]?,
            denied: vec![in alloc; false; vars as usize]?,
            problem: db.len(),
            orders,
            timed,
        };
        heads.count(db);
        add_up(&mut heads.ends);
        heads.fill(db);
        Ok(heads)
    }

    // Counts the clauses of each literal, at the place behind its own.
    fn count(&mut self, db: &Db) {
        for c in 0..db.len() {
            let lits = db.lits(ClauseRef::new(c));
            if let Some(head) = self.head(lits) {
                count_up(&mut self.ends, place_of(head) + 1);
                self.note_denied(lits, head);
            }
        }
    }

    // Notes the variables that stand negated in a clause with this head.
    fn note_denied(&mut self, lits: &[Lit], head: Lit) {
        for lit in lits {
            let place = lit.var().get() as usize;
            if *lit != head
                && !lit.positive()
                && let Some(denied) = self.denied.get_mut(place)
            {
                *denied = true;
            }
        }
    }

    // Whether a variable stands negated in a clause of which it isn't the head.
    fn is_denied(&self, var: Var) -> bool {
        self.denied
            .get(var.get() as usize)
            .copied()
            .unwrap_or(false)
    }

    // Puts each clause where those of its head begin, which so comes to be where they end.
    fn fill(&mut self, db: &Db) {
        for c in 0..db.len() {
            let clause = ClauseRef::new(c);
            if let Some(head) = self.head(db.lits(clause)) {
                let at = count_up(&mut self.ends, place_of(head));
                if let Some(slot) = self.clauses.get_mut(at as usize) {
                    *slot = clause;
                }
            }
        }
    }

    /// Whether a literal is no order.
    pub fn is_free(&self, lit: Lit) -> bool {
        lit.var().get() >= self.orders
    }

    /// The head of a clause.
    pub fn head(&self, clause: &[Lit]) -> Option<Lit> {
        let mut head = None;
        for lit in clause {
            if lit.var().get() >= self.timed {
                return Some(*lit);
            }
            if head.is_none() && self.is_free(*lit) {
                head = Some(*lit);
            }
        }
        head
    }

    /// Whether a clause is one of the problem with this head.
    pub fn heads(&self, lit: Lit, clause: ClauseRef, lits: &[Lit]) -> bool {
        clause.get() < self.problem && self.head(lits) == Some(lit)
    }

    /// Where the clauses of a literal begin among all, and where they end.
    pub fn range(&self, lit: Lit) -> (u32, u32) {
        let place = place_of(lit);
        let start = if place == 0 {
            0
        } else {
            self.ends.get(place - 1).copied().unwrap_or(0)
        };
        (start, self.ends.get(place).copied().unwrap_or(0))
    }

    /// The literal by whose clauses a variable is rated: its negative one; or the positive one where the negative one is the
    /// head of no clause, and that one is, or some clause wants the variable to be false.
    pub fn rating_head(&self, var: Var) -> Lit {
        let head = Lit::new(var, false);
        let (start, end) = self.range(head);
        let (first, last) = self.range(head.negated());
        if start == end && (first < last || self.is_denied(var)) {
            head.negated()
        } else {
            head
        }
    }

    /// The clause at a place.
    pub fn at(&self, place: u32) -> Option<ClauseRef> {
        self.clauses.get(place as usize).copied()
    }
}
