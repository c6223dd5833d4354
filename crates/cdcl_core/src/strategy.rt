//! What to decide: a literal that repairs the present timing.
//!
//! The graph's numbers are at each moment a timing that the log and all assigned orders admit, and most atoms have in
//! it the value that they need. So what is decided is a literal of a clause that has to hold and doesn't; where there
//! is no such clause, the values of all atoms can be read off the timing.

use crate::heads::Heads;
use crate::needs::Needs;
use crate::ratings::Ratings;
use crate::restarts::Restarts;
use crate::scores::Scores;
use crate::sight::Sight;
use axiom_rules::{Atom, AtomTable, Rule, SOME_IS_FIRST};
use clause_db::{ClauseRef, Db, Lit, Var};
use mtl_encode::Problem;
use std::alloc::{AllocError, Global};

/// What a search knows when it chooses. None of it is needed for what an answer says.
#[derive(Drop)]
pub struct Strategy {
    heads: Heads,
    needs: Needs,
    ratings: Ratings,
    scores: Scores,
    restarts: Restarts,
    // The clause that some event is first, which has to hold whatever is assigned.
    root: Option<ClauseRef>,
    // Whether each variable is assigned in the order of their numbers, up to the next conflict.
    fills: bool,
}

// The clause that some event is first.
fn root_of(rules: &[Rule]) -> Option<ClauseRef> {
    let place = rules.iter().position(|rule| rule.number == SOME_IS_FIRST)?;
    Some(ClauseRef::new(u32::try_from(place).ok()?))
}

// How many of the first variables are orders.
fn orders_in(atoms: &AtomTable) -> u32 {
    for v in 0..atoms.len() {
        match atoms.atom(Var::new(v)) {
            Atom::Order { .. } => {}
            _ => return v,
        }
    }
    atoms.len()
}

// How many of the first variables are about times alone: orders, and pairs of events at one instant.
fn timed_in(atoms: &AtomTable) -> u32 {
    for v in 0..atoms.len() {
        match atoms.atom(Var::new(v)) {
            Atom::Order { .. } | Atom::Same { .. } => {}
            _ => return v,
        }
    }
    atoms.len()
}

impl Strategy {
    /// Before the first decision on a problem.
    pub fn new(alloc: Global, problem: &Problem) -> Result<Strategy, AllocError> {
        let (db, atoms) = (&problem.db, &problem.atoms);
        let vars = atoms.len();
        Ok(Strategy {
            heads: Heads::new(alloc, db, vars, orders_in(atoms), timed_in(atoms))?,
            needs: Needs::new(alloc),
            ratings: Ratings::new(alloc, vars, problem.nodes, db.len())?,
            scores: Scores::new(alloc, vars)?,
            restarts: Restarts::new(),
            root: root_of(problem.rules.as_slice()),
            fills: false,
        })
    }

    /// Whether each variable is assigned in the order of their numbers, up to the next conflict.
    pub fn fills(&self) -> bool {
        self.fills
    }

    /// From here on each variable is assigned in the order of their numbers, up to the next conflict.
    pub fn fill(&mut self) {
        self.fills = true;
    }

    /// Takes in the clauses that led to a conflict: whether the search begins anew at level 0.
    pub fn conflict(&mut self, db: &Db, hints: &[ClauseRef]) -> Result<bool, AllocError> {
        for hint in hints {
            if hint.get() < db.len() {
                self.raise(db.lits(*hint))?;
            }
        }
        self.scores.grow();
        self.fills = false;
        Ok(self.restarts.count())
    }

    // Raises the scores of the variables of a clause. That of an order is never asked for.
    fn raise(&mut self, clause: &[Lit]) -> Result<(), AllocError> {
        for lit in clause {
            if self.heads.is_free(*lit) {
                self.scores.raise(lit.var())?;
            }
        }
        Ok(())
    }

    /// Takes in that the trail went back to so many literals.
    pub fn cut(&mut self, len: u32) {
        self.needs.cut(len);
    }

    /// A literal of a clause that has to hold and that the present timing doesn't meet, and None where all are met.
    pub fn decision(&mut self, sight: Sight<'_>) -> Result<Option<Lit>, AllocError> {
        self.needs.extend_to(sight, &self.heads)?;
        match self.open_clause(sight)? {
            None => Ok(None),
            Some(clause) => Ok(self.choose(sight, clause)),
        }
    }

    /// The value of a variable that is no order, where the smaller ones have these values.
    pub fn value(&mut self, sight: Sight<'_>, values: &[bool], var: Var) -> bool {
        self.ratings.value(sight, &self.heads, values, var)
    }

    // A clause that has to hold and that the present timing doesn't meet. The ratings may be of earlier timings
    // until nothing is open by them.
    fn open_clause(&mut self, sight: Sight<'_>) -> Result<Option<ClauseRef>, AllocError> {
        let mut open = self.unmet(sight)?;
        if open.is_none() && self.ratings.forget(sight) {
            open = self.unmet(sight)?;
        }
        if open.is_none() {
            open = self.unjustified(sight)?;
        }
        Ok(open)
    }

    // The next clause on the round over the needed literals whose head is such a literal's negation, and that is
    // unmet.
    fn unmet(&mut self, sight: Sight<'_>) -> Result<Option<ClauseRef>, AllocError> {
        if let Some(root) = self.root
            && !self.is_met(sight, root)?
        {
            return Ok(Some(root));
        }
        for _round in 0..self.needs.len() {
            if let Some(clause) = self.unmet_here(sight)? {
                return Ok(Some(clause));
            }
            self.needs.advance();
        }
        Ok(None)
    }

    // An unmet clause whose head is the negation of the needed literal where the round is.
    fn unmet_here(&mut self, sight: Sight<'_>) -> Result<Option<ClauseRef>, AllocError> {
        let Some(lit) = literal_at(sight, self.needs.current()) else {
            return Ok(None);
        };
        let (start, end) = self.heads.range(lit.negated());
        for place in start..end {
            if let Some(clause) = self.heads.at(place)
                && !self.is_met(sight, clause)?
            {
                return Ok(Some(clause));
            }
        }
        Ok(None)
    }

    // Whether the present timing meets a clause.
    fn is_met(&mut self, sight: Sight<'_>, clause: ClauseRef) -> Result<bool, AllocError> {
        let lits = sight.lits(clause);
        if let Some(lit) = lits.get(self.ratings.support(clause))
            && self.holds(sight, *lit)?
        {
            return Ok(true);
        }
        for place in 0..lits.len() {
            if self.holds(sight, lits[place])? {
                self.ratings.note_support(clause, place);
                return Ok(true);
            }
        }
        Ok(false)
    }

    /// Whether a literal is true, or is open and true in the present timing.
    pub fn holds(&mut self, sight: Sight<'_>, lit: Lit) -> Result<bool, AllocError> {
        match sight.truth(lit) {
            Some(truth) => Ok(truth),
            None if self.heads.is_free(lit) => self.ratings.rates(sight, &self.heads, lit),
            None => Ok(sight.meets(lit)),
        }
    }

    // A clause without a true literal whose head is the negation of a needed literal that is rated false.
    fn unjustified(&mut self, sight: Sight<'_>) -> Result<Option<ClauseRef>, AllocError> {
        for index in 0..self.needs.len() {
            if let Some(clause) = self.unjustified_at(sight, index)? {
                return Ok(Some(clause));
            }
        }
        Ok(None)
    }

    // The same of the needed literal at a place of the list.
    fn unjustified_at(
        &mut self,
        sight: Sight<'_>,
        index: usize,
    ) -> Result<Option<ClauseRef>, AllocError> {
        let Some(lit) = literal_at(sight, self.needs.get(index)) else {
            return Ok(None);
        };
        if self.ratings.rates(sight, &self.heads, lit)? {
            return Ok(None);
        }
        let (start, end) = self.heads.range(lit.negated());
        for place in start..end {
            if let Some(clause) = self.heads.at(place)
                && !has_true(sight, clause)
            {
                return Ok(Some(clause));
            }
        }
        Ok(None)
    }

    // The open literal of a clause that is to be decided: one that is no order, of the greatest score, and else the
    // order that the present timing misses by least; of equals the one of the least variable.
    fn choose(&self, sight: Sight<'_>, clause: ClauseRef) -> Option<Lit> {
        let mut free: Option<Lit> = None;
        let mut order: Option<Lit> = None;
        for lit in sight.lits(clause) {
            if sight.truth(*lit).is_none() {
                if self.heads.is_free(*lit) {
                    free = Some(self.higher(free, *lit));
                } else {
                    order = Some(nearer(sight, order, *lit));
                }
            }
        }
        free.or(order)
    }

    // Of two literals that of the greater score, or of the lesser variable.
    fn higher(&self, best: Option<Lit>, lit: Lit) -> Lit {
        let Some(best) = best else {
            return lit;
        };
        let (score, highest) = (self.scores.score(lit.var()), self.scores.score(best.var()));
        if highest > score || (highest == score && best.var() < lit.var()) {
            best
        } else {
            lit
        }
    }
}

// The literal at a place of the trail, if there is one.
fn literal_at(sight: Sight<'_>, place: Option<u32>) -> Option<Lit> {
    sight.assigned(place?)
}

// Of two orders the one that the present timing misses by less, or of the lesser variable.
fn nearer(sight: Sight<'_>, best: Option<Lit>, lit: Lit) -> Lit {
    let Some(best) = best else {
        return lit;
    };
    let (excess, least) = (sight.excess(lit), sight.excess(best));
    if least < excess || (least == excess && best.var() < lit.var()) {
        best
    } else {
        lit
    }
}

// Whether a clause has a true literal.
fn has_true(sight: Sight<'_>, clause: ClauseRef) -> bool {
    for lit in sight.lits(clause) {
        if sight.truth(*lit) == Some(true) {
            return true;
        }
    }
    false
}
