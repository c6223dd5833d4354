//! The values that the atoms which are no orders have in a timing, by the clauses that they head.

use crate::heads::Heads;
use crate::sight::Sight;
use clause_db::{ClauseRef, Lit, Var};
use std::alloc::{AllocError, Global};

/// Values of variables, each of which is found when it is asked for, and kept until all are forgotten.
#[derive(Drop)]
pub struct Ratings {
    ratings: Vec<Rating>,
    // The number of the timing that variables are rated in, and the nodes' numbers when it began.
    timing: u32,
    numbers: Vec<i128>,
    // By clause, the place of the literal that last met it.
    supports: Vec<u32>,
    // Those that are being rated, each of which the one before it asks for.
    pending: Vec<Pending>,
}

// The value of a variable, and the number of the timing that it was rated in.
#[derive(Clone, Copy)]
struct Rating {
    timing: u32,
    value: bool,
}

// How far the rating of a variable is: the place of a clause among all that have heads, and how many of its literals
// were looked at. The first that is looked at is the one that last met the clause.
#[derive(Clone, Copy)]
struct Pending {
    var: Var,
    place: u32,
    looked: usize,
}

// What a clause says of the variable that is the head's.
enum Answer {
    // This literal of another variable meets it.
    Met(usize),
    // No such literal does.
    Unmet,
    // After so many literals comes one of this variable, which isn't rated yet.
    Asks { looked: usize, var: Var },
}

// Where a rating comes to.
enum Step {
    Rated(bool),
    // This far, where this variable has to be rated first.
    Asks(Pending, Var),
}

impl Ratings {
    /// So many variables, nodes and clauses, which aren't rated yet.
    pub fn new(alloc: Global, vars: u32, nodes: u32, clauses: u32) -> Result<Ratings, AllocError> {
        let unrated = Rating {
            timing: 0,
            value: false,
        };
        Ok(Ratings {
            ratings: vec![in alloc; unrated; vars as usize]?,
            timing: 1,
            numbers: vec![in alloc; i128::MIN; nodes as usize]?,
            supports: vec![in alloc; 0; clauses as usize]?,
            pending: Vec::new(alloc),
        })
    }

    /// The place in a clause of the literal that last met it.
    pub fn support(&self, clause: ClauseRef) -> usize {
        self.supports
            .get(clause.get() as usize)
            .copied()
            .unwrap_or(0) as usize
    }

    /// Notes the place in a clause of a literal that meets it.
    pub fn note_support(&mut self, clause: ClauseRef, place: usize) {
        if let Some(support) = self.supports.get_mut(clause.get() as usize) {
            *support = u32::try_from(place).unwrap_or(0);
        }
    }

    /// Forgets all ratings, if the nodes' numbers aren't those of when it did so last: whether that was so.
    pub fn forget(&mut self, sight: Sight<'_>) -> bool {
        let other = self.take_numbers(sight);
        if other {
            self.timing = self.timing.saturating_add(1);
        }
        other
    }

    // Takes the nodes' numbers over: whether one of them had changed.
    fn take_numbers(&mut self, sight: Sight<'_>) -> bool {
        let mut other = false;
        for node in 0..sight.nodes {
            if let Some(number) = self.numbers.get_mut(node as usize) {
                let potential = sight.graph.potential(node);
                if *number != potential {
                    *number = potential;
                    other = true;
                }
            }
        }
        other
    }

    /// Whether a literal that is no order is true: as its variable was rated already, or else in the present timing.
    pub fn rates(&mut self, sight: Sight<'_>, heads: &Heads, lit: Lit) -> Result<bool, AllocError> {
        let value = match self.rated(lit.var()) {
            None => self.rate(sight, heads, lit.var())?,
            Some(value) => value,
        };
        Ok(value == lit.positive())
    }

    /// The value of a variable that is no order, where the smaller ones have these values: it isn't that of the head by
    /// whose clauses it is rated where each of these has another true literal.
    pub fn value(&mut self, sight: Sight<'_>, heads: &Heads, values: &[bool], var: Var) -> bool {
        let head = heads.rating_head(var);
        let (start, end) = heads.range(head);
        for place in start..end {
            if let Some(clause) = heads.at(place)
                && !self.is_justified(sight, clause, values, var)
            {
                return head.positive();
            }
        }
        !head.positive()
    }

    // Whether a literal of another variable than this is true in a clause by these values.
    fn is_justified(
        &mut self,
        sight: Sight<'_>,
        clause: ClauseRef,
        values: &[bool],
        but: Var,
    ) -> bool {
        let lits = sight.lits(clause);
        if let Some(lit) = lits.get(self.support(clause))
            && lit.var() != but
            && is_true(values, *lit)
        {
            return true;
        }
        for place in 0..lits.len() {
            let lit = lits[place];
            if lit.var() != but && is_true(values, lit) {
                self.note_support(clause, place);
                return true;
            }
        }
        false
    }

    // The value of a variable, if it is rated.
    fn rated(&self, var: Var) -> Option<bool> {
        match self.ratings.get(var.get() as usize) {
            Some(rating) if rating.timing == self.timing => Some(rating.value),
            _ => None,
        }
    }

    // Whether a literal is true, if it is an order or rated.
    fn truth(&self, sight: Sight<'_>, heads: &Heads, lit: Lit) -> Option<bool> {
        if heads.is_free(lit) {
            let value = self.rated(lit.var())?;
            Some(value == lit.positive())
        } else {
            Some(sight.meets(lit))
        }
    }

    // Rates a variable: its value isn't that of the head by whose clauses it is rated where each of these has another
    // true literal. The smaller variables that it asks for are rated first.
    fn rate(&mut self, sight: Sight<'_>, heads: &Heads, var: Var) -> Result<bool, AllocError> {
        self.pending.push(Pending::of(heads, var))?;
        // Each variable begins once and is rated once.
        'steps: for _step in 0..2 * sight.vars as u64 + 2 {
            let Some(pending) = self.pending.pop() else {
                break 'steps;
            };
            let asked = pending.var;
            match self.step(sight, heads, pending) {
                Step::Rated(value) => self.note(asked, value),
                Step::Asks(again, smaller) => {
                    self.pending.push(again)?;
                    self.pending.push(Pending::of(heads, smaller))?;
                }
            }
        }
        Ok(self.rated(var).unwrap_or(false))
    }

    // Notes the value of a variable.
    fn note(&mut self, var: Var, value: bool) {
        let timing = self.timing;
        if let Some(rating) = self.ratings.get_mut(var.get() as usize) {
            *rating = Rating { timing, value };
        }
    }

    // Goes on with a rating until it is known or asks for a smaller variable.
    fn step(&mut self, sight: Sight<'_>, heads: &Heads, pending: Pending) -> Step {
        let head = heads.rating_head(pending.var);
        let (_, end) = heads.range(head);
        let mut looked = pending.looked;
        for place in pending.place..end {
            if let Some(clause) = heads.at(place) {
                match self.answer(sight, heads, clause, pending.var, looked) {
                    Answer::Met(at) => self.note_support(clause, at),
                    Answer::Unmet => return Step::Rated(head.positive()),
                    Answer::Asks { looked, var } => {
                        let again = Pending {
                            var: pending.var,
                            place,
                            looked,
                        };
                        return Step::Asks(again, var);
                    }
                }
            }
            looked = 0;
        }
        Step::Rated(!head.positive())
    }

    // What a clause says of a variable of it, from the literal on that comes after so many.
    fn answer(
        &self,
        sight: Sight<'_>,
        heads: &Heads,
        clause: ClauseRef,
        var: Var,
        from: usize,
    ) -> Answer {
        let lits = sight.lits(clause);
        for looked in from..lits.len().saturating_add(1) {
            let at = if looked == 0 {
                self.support(clause)
            } else {
                looked - 1
            };
            if let Some(lit) = lits.get(at)
                && lit.var() != var
            {
                match self.truth(sight, heads, *lit) {
                    Some(true) => return Answer::Met(at),
                    None if lit.var() < var => {
                        return Answer::Asks {
                            looked,
                            var: lit.var(),
                        };
                    }
                    _ => {}
                }
            }
        }
        Answer::Unmet
    }
}

// Whether these values make a literal true; one without a value is not.
fn is_true(values: &[bool], lit: Lit) -> bool {
    values.get(lit.var().get() as usize).copied() == Some(lit.positive())
}

impl Pending {
    // A variable of whose clauses none was looked at.
    fn of(heads: &Heads, var: Var) -> Pending {
        let (place, _) = heads.range(heads.rating_head(var));
        Pending {
            var,
            place,
            looked: 0,
        }
    }
}
