//! Where the literals of long clauses may stand among those that are assumed.
//!
//! A guess is compared with what stands at its place by who asks for it, so that judging is right whatever is guessed here,
//! and quick where it is guessed right.

ghost use Rattle.std.specs.Prelude.{◌<◌, ◌^◌};

use crate::kept::Clauses;
use crate::refutation::Assumed;
use axiom_rules::{Atom, Literal, Rules};
use std::alloc::{AllocError, Global};
use std::cmp::Ordering;
use std::collections::BTreeMap;

/// No guesses are made for clauses with at most so many literals.
pub const SHORT: usize = 8;

// As many atoms stand in the map before the list of places gets any.
const FEW: usize = 1_024;

// No guesses are made for places from this one on.
const FAR: usize = 1 << 31;

/// For each literal of the long clauses that were cited the first place of its atom, and for each of these places where a
/// literal of its atom is assumed.
///
/// Where there are many first places, all but an eighth are found by a list of them, since the map takes several times its
/// room. Atoms are compared, not hashed, since atoms could be chosen that share a hash.
#[derive(Drop)]
pub struct Guesses {
    alloc: Global,
    // By the place of a literal, one more than the first place of its atom; 0 where that isn't known.
    firsts: Vec<u32>,
    // First places, in the order of their atoms.
    sorted: Vec<u32>,
    // The other first places.
    recent: BTreeMap<Atom, u32>,
    // By one more than the first place of an atom, where a literal of it was last seen among those that are assumed.
    assumed: Vec<u32>,
    // How many of the literals that are assumed were seen.
    seen: usize,
    // By two events, where a literal of their one instant was last seen among those that are assumed.
    instants: Vec<u32>,
    // How many were seen for that.
    seen_instants: usize,
    events: u32,
    is_any_long: bool,
}

impl Guesses {
    /// No guess, which takes no memory.
    pub fn new(alloc: Global, rules: &Rules) -> Guesses {
        Guesses {
            alloc,
            firsts: Vec::new(alloc),
            sorted: Vec::new(alloc),
            recent: BTreeMap::new(alloc),
            assumed: Vec::new(alloc),
            seen: 0,
            instants: Vec::new(alloc),
            seen_instants: 0,
            events: rules.events(),
            is_any_long: has_many_pulses(rules),
        }
    }

    /// Begins with the literals that are assumed for the line after those whose clauses are closed.
    pub fn begin(&mut self, kept: &Clauses) {
        self.seen = 0;
        self.seen_instants = 0;
        if let Some(clause) = kept.last() {
            if clause.len() > SHORT {
                self.is_any_long = true;
            }
        }
    }

    /// Whether there is a clause that guesses are made for.
    pub fn is_any_long(&self) -> bool {
        self.is_any_long
    }

    // The first place of an atom, where it has one.
    fn first(&self, literals: &[Literal], atom: &Atom) -> Option<u32> {
        match place_among(literals, &self.sorted, atom) {
            Some(place) => Some(place),
            None => self.recent.get(atom).copied(),
        }
    }

    // Moves the first places of the map into the list.
    fn merge(&mut self, literals: &[Literal]) -> Result<(), AllocError> {
        move_all(&mut self.sorted, &mut self.recent)?;
        self.sorted.sort_by_key(|place| atom_at(literals, *place))
    }

    // The first place of the atom of the literal at a place, which is this one where there is none yet.
    fn first_from(&mut self, literals: &[Literal], place: u32) -> Result<u32, AllocError> {
        let atom = atom_at(literals, place);
        if let Some(first) = self.first(literals, &atom) {
            return Ok(first);
        }
        self.recent.insert(atom, place)?;
        if are_many(self.recent.len(), self.sorted.len()) {
            self.merge(literals)?;
        }
        Ok(place)
    }

    // Finds the first place of each literal of a clause.
    fn find_firsts(
        &mut self,
        literals: &[Literal],
        start: usize,
        end: usize,
    ) -> Result<(), AllocError>
        requires { end < 2 ^ 32 }
    {
        if self.firsts.len() < end {
            self.firsts.resize(end, 0)?;
            self.assumed.resize(end.saturating_add(1), 0)?;
        }
        for place in start..end {
            let first = self.first_from(literals, place as u32)?;
            if let Some(known) = self.firsts.get_mut(place) {
                *known = first.saturating_add(1);
            }
        }
        Ok(())
    }

    // Notes where a literal of an atom is assumed.
    fn note(&mut self, literals: &[Literal], atom: &Atom, at: usize)
        requires { at < 2 ^ 31 }
    {
        let Some(first) = self.first(literals, atom) else {
            return;
        };
        if let Some(known) = self.assumed.get_mut(first as usize + 1) {
            *known = at as u32;
        }
    }

    /// Makes guesses for the clause whose literals begin at a place among all literals of clauses.
    pub fn make(
        &mut self,
        literals: &[Literal],
        start: usize,
        count: usize,
        assumed: &Assumed,
    ) -> Result<(), AllocError> {
        if start >= FAR || count >= FAR {
            return Ok(());
        }
        let is_new = match self.firsts.get(start) {
            Some(first) => *first == 0,
            None => true,
        };
        if is_new {
            self.find_firsts(literals, start, start + count)?;
        }
        for at in self.seen..FAR {
            let Some(literal) = assumed.listed(at) else {
                self.seen = at;
                return Ok(());
            };
            self.note(literals, &literal.atom, at);
        }
        Ok(())
    }

    /// Makes guesses for the literals of instants.
    pub fn make_instants(&mut self, assumed: &Assumed) -> Result<(), AllocError> {
        if self.instants.is_empty() {
            let pairs = self.events as usize * self.events as usize;
            self.instants.resize(pairs, 0)?;
        }
        for at in self.seen_instants..FAR {
            let Some(literal) = assumed.listed(at) else {
                self.seen_instants = at;
                return Ok(());
            };
            self.note_instant(&literal.atom, at);
        }
        Ok(())
    }

    // Notes where a literal of an atom is assumed, if it is that of an instant.
    fn note_instant(&mut self, atom: &Atom, at: usize)
        requires { at < 2 ^ 31 }
    {
        let Some(pair) = self.pair(atom) else {
            return;
        };
        if let Some(known) = self.instants.get_mut(pair) {
            *known = at as u32;
        }
    }

    // The place of two events at one instant among all pairs.
    fn pair(&self, atom: &Atom) -> Option<usize> {
        match atom {
            Atom::Same { e, x } => Some(*e as usize * self.events as usize + *x as usize),
            _ => None,
        }
    }

    /// What is known of the literals of a clause, of which so many begin at a place among all literals of clauses.
    pub fn clue(&self, start: usize, count: usize) -> Clue<'_> {
        match self.firsts.get(start..start.saturating_add(count)) {
            Some(firsts) => Clue::Firsts(firsts, &self.assumed),
            None => Clue::Nothing,
        }
    }

    // Where a literal of an instant may stand among those that are assumed.
    fn at_instant(&self, atom: &Atom) -> Option<&u32> {
        self.instants.get(self.pair(atom)?)
    }
}

/// By what it is guessed where the next literal of a clause stands among those that are assumed.
#[derive(Clone, Copy)]
pub enum Clue<'a> {
    /// By nothing: it isn't guessed.
    Nothing,
    /// By one more than the first place of its atom, the next one of these, and by where literals are assumed, by that number.
    Firsts(&'a [u32], &'a [u32]),
    /// By its atom, where that is of an instant.
    Instant(&'a Guesses),
}

impl<'a> Clue<'a> {
    /// Where the next literal, which this is, may stand among those that are assumed.
    pub fn at(self, literal: &Literal) -> Option<usize> {
        let at = match self {
            Clue::Nothing => None,
            Clue::Firsts([first, ..], assumed) => assumed.get(*first as usize),
            Clue::Firsts([], _) => None,
            Clue::Instant(guesses) => guesses.at_instant(&literal.atom),
        };
        Some(*at? as usize)
    }

    /// What is known of the literal after the next one.
    pub fn after(self) -> Clue<'a> {
        match self {
            Clue::Firsts([_, firsts @ ..], assumed) => Clue::Firsts(firsts, assumed),
            _ => self,
        }
    }
}

// Whether there is a proposition with so many pulses that their clauses are long.
fn has_many_pulses(rules: &Rules) -> bool {
    for k in 0..rules.nodes() {
        if k < FAR && rules.pulse_count(k as u32) as usize > SHORT {
            return true;
        }
    }
    false
}

// Moves the places of a map to the end of a list, with no more room than they take.
fn move_all(places: &mut Vec<u32>, map: &mut BTreeMap<Atom, u32>) -> Result<(), AllocError> {
    places.reserve_exact(map.len())?;
    'each: while let Some((_, place)) = map.pop_first() {
        places.push(place)?;
    }
    Ok(())
}

// Whether so many places stand in the map that they should move into the list.
fn are_many(recent: usize, sorted: usize) -> bool {
    recent > FEW && recent > sorted / 8
}

// The atom at a place; past the end any other.
fn atom_at(literals: &[Literal], place: u32) -> Atom {
    match literals.get(place as usize) {
        Some(literal) => literal.atom,
        None => Atom::First { e: 0 },
    }
}

// Whether the atom at a place comes before another.
fn comes_before(literals: &[Literal], place: u32, atom: &Atom) -> bool {
    atom_at(literals, place).cmp(atom) == Ordering::Less
}

// The place of an atom among places in the order of their atoms.
fn place_among(literals: &[Literal], places: &[u32], atom: &Atom) -> Option<u32> {
    let at = places.partition_point(|place| comes_before(literals, *place, atom));
    let place = *places.get(at)?;
    if atom_at(literals, place) == *atom {
        Some(place)
    } else {
        None
    }
}
