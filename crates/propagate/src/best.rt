//! The literals of a clause that are best watched.

ghost use Rattle.std.specs.Prelude.{◌≡◌, ◌≢◌, ◌<◌, length, true, false, All, Contains, Option, Some, IfSome, IsNone, ◌≤◌, ◌⊎◌};
ghost use Rattle.clause_db.specs.Literals.{HasVarsOnce, negation};
ghost use Rattle.propagate.specs.Trails.{literals};
ghost use Rattle.propagate.specs.Best.{AreBest, AreFalseWithin, IsBest};

use crate::Trail;
use crate::trail::trails_are_in_order;
use crate::watch::Watch;
use clause_db::Lit;

// A false literal, and the level at which it became so.
#[derive(Clone, Copy)]
pub struct Falsified {
    pub lit: Lit,
    pub level: u32,
}

// A literal of a clause, and its place there.
#[derive(Clone, Copy)]
pub struct Found {
    pub lit: Lit,
    pub place: usize,
}

// The two literals of a clause that are best watched, and None where it has no two.
pub fn best_two(trail: &Trail, clause: &[Lit]) -> Option<Watch>
    requires in_range { All (λ l. l.var < trail.now.vars) clause.now }
    requires once { HasVarsOnce clause.now }
    ensures two { IfSome result (AreBest trail.now.entries clause.now) }
    ensures short { IsNone result → length clause.now < 2 }
{
    let first = best_beside(trail, clause, None, 0)?;
    let second = best_beside(trail, clause, Some(first.lit), first.place)?;
    Some(Watch {
        first: first.lit,
        second: second.lit,
    })
}

// The literal of a clause, beside another one, that is best watched: one that isn't false, or else one
// that became false last. The search for one that isn't false begins at a place of the clause.
pub fn best_beside(trail: &Trail, clause: &[Lit], beside: Option<Lit>, from: usize) -> Option<Found>
    requires in_range { All (λ l. l.var < trail.now.vars) clause.now }
    ensures best { IfSome result (λ f. IsBest trail.now.entries clause.now beside f.lit) }
    ensures none { IsNone result → All (λ x. beside ≡ Some x) clause.now }
{
    if let Some(found) = open_beside(trail, clause, beside, from) {
        return Some(found);
    }
    let lit = last_beside(trail, clause, beside)?;
    Some(Found { lit, place: from })
}

// The same where a literal beside the other one is false: if it became so at the present level, none did later.
pub fn best_after(
    trail: &Trail,
    clause: &[Lit],
    beside: Lit,
    fallen: Lit,
    from: usize,
) -> Option<Found>
    requires in_range { All (λ l. l.var < trail.now.vars) clause.now }
    requires has { Contains clause.now fallen }
    requires apart { beside ≢ fallen }
    requires fallen { Contains (literals trail.now.entries) (negation fallen) }
    ensures best { IfSome result (λ f. IsBest trail.now.entries clause.now (Some beside) f.lit) }
    ensures none { IsNone result → All (λ x. Some beside ≡ Some x) clause.now }
{
    if let Some(found) = open_beside(trail, clause, Some(beside), from) {
        return Some(found);
    }
    if trail.level_of(fallen.var()) == trail.level() {
        return Some(Found {
            lit: fallen,
            place: from,
        });
    }
    let lit = last_beside(trail, clause, Some(beside))?;
    Some(Found { lit, place: from })
}

// A literal of a clause, beside another one, that isn't false. The search begins at a place of the clause and goes round once.
fn open_beside(trail: &Trail, clause: &[Lit], beside: Option<Lit>, from: usize) -> Option<Found>
    requires in_range { All (λ l. l.var < trail.now.vars) clause.now }
    ensures open { IfSome result (λ f. IsBest trail.now.entries clause.now beside f.lit) }
    ensures none { IsNone result → AreFalseWithin trail.now.entries clause.now 0 (length clause.now) beside }
{
    let from = from.min(clause.len());
    match open_within(trail, clause, beside, from, clause.len()) {
        Some(found) => Some(found),
        None => open_within(trail, clause, beside, 0, from),
    }
}

// The first literal of a part of a clause, beside another one, that isn't false.
fn open_within(
    trail: &Trail,
    clause: &[Lit],
    beside: Option<Lit>,
    from: usize,
    to: usize,
) -> Option<Found>
    requires in_range { All (λ l. l.var < trail.now.vars) clause.now }
    requires within { to ≤ length clause.now }
    ensures open { IfSome result (λ f. IsBest trail.now.entries clause.now beside f.lit) }
    ensures none { IsNone result → AreFalseWithin trail.now.entries clause.now from to beside }
{
    for place in from..to {
        let lit = clause[place];
        if may_be_watched(trail, lit, beside) {
            return Some(Found { lit, place });
        }
    }
    None
}

// Whether a literal differs from another one and isn't false.
fn may_be_watched(trail: &Trail, lit: Lit, beside: Option<Lit>) -> bool
    requires in_range { lit.var < trail.now.vars }
    ensures open { result ≡ true → (beside ≢ Some lit) × (Contains (literals trail.now.entries) (negation lit) → ⊥) }
    ensures closed { result ≡ false → (beside ≡ Some lit) ⊎ Contains (literals trail.now.entries) (negation lit) }
{
    trails_are_in_order(trail);
    if beside == Some(lit) {
        return false;
    }
    match trail.truth(lit) {
        Some(false) => false,
        Some(true) => true,
        None => true,
    }
}

// The literal of a clause, beside another one, that is best watched, by the levels of those that are false.
fn last_beside(trail: &Trail, clause: &[Lit], beside: Option<Lit>) -> Option<Lit>
    requires in_range { All (λ l. l.var < trail.now.vars) clause.now }
    ensures best { IfSome result (IsBest trail.now.entries clause.now beside) }
    ensures none { IsNone result → All (λ x. beside ≡ Some x) clause.now }
{
    trails_are_in_order(trail);
    let mut last: Option<Falsified> = None;
    for lit in clause {
        if beside != Some(*lit) {
            match trail.false_at(*lit) {
                None => return Some(*lit),
                Some(level) => last = Some(later(last, *lit, level)),
            }
        }
    }
    match last {
        None => None,
        Some(falsified) => Some(falsified.lit),
    }
}

// Of two false literals the one that became false last, or the only one.
fn later(last: Option<Falsified>, lit: Lit, level: u32) -> Falsified
    ensures only { IsNone last → result ≡ record { lit = lit; level = level } }
    ensures later { IfSome last (λ f. ((result ≡ f) × (level ≤ f.level)) ⊎ ((result ≡ record { lit = lit; level = level }) × (f.level ≤ level))) }
{
    match last {
        Some(falsified) if level <= falsified.level => falsified,
        _ => Falsified { lit, level },
    }
}
