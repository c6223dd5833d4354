//! What the bounds of a log decide by themselves: nodes at events, and literals.

ghost use Rattle.std.specs.Prelude.{◌≡◌, ◌↔◌, ◌≤ℤ◌, ◌<ℤ◌, true, false, None, Some};
ghost use Rattle.question.specs.Extremes.{extremes_of};

use crate::needless::{
    is_always_before, is_always_from, is_always_up_to, is_dead, is_never_before,
};
use crate::scene::{Scene, sets_at};
use crate::windows::Windows;
use axiom_rules::{Atom, ChangeRow, Literal, Reach, Rules};
use formula_arena::{Arena, Core, Direction};
use mt_model::NodeId;
use question::{farthest, greatest_between, least_between, nearest};
use skew_bounds::Tight;
use std::alloc::{AllocError, Global};

/// For each node, the value that it has at each event in every timing, where one is known.
#[derive(Drop)]
pub struct Known {
    columns: Vec<Vec<Option<bool>>>,
    // By node, whether no until or since is in it.
    plain: Vec<bool>,
}

impl Known {
    /// Of no node.
    fn new(alloc: Global) -> Known {
        Known {
            columns: Vec::new(alloc),
            plain: Vec::new(alloc),
        }
    }

    /// Whether no until or since is in a node.
    pub fn is_plain(&self, k: u32) -> bool {
        self.plain.get(k as usize).copied() == Some(true)
    }

    // Whether no until or since is in a node whose parts are there.
    fn joins_plain(&self, core: Core) -> bool {
        match core {
            Core::True | Core::Prop(_) => true,
            Core::Not(of) => self.is_plain(of.get()),
            Core::And(left, right) => self.is_plain(left.get()) && self.is_plain(right.get()),
            Core::Until(..) | Core::Since(..) => false,
        }
    }

    /// The value of a node at an event, if it is known.
    pub fn value(&self, k: u32, e: u32) -> Option<bool> {
        match self.columns.get(k as usize) {
            Some(column) => column.get(e as usize).copied().unwrap_or(None),
            None => None,
        }
    }
}

/// What is known of each node, the parts of which come before it.
pub fn known_by(
    alloc: Global,
    rules: &Rules,
    arena: &Arena,
    tight: &Tight,
    windows: &Windows,
) -> Result<Known, AllocError> {
    let mut known = Known::new(alloc);
    for k in 0..arena.len() {
        let scene = Scene {
            rules,
            arena,
            tight,
            windows,
            known: &known,
        };
        let column = column_of(alloc, scene, k)?;
        known.columns.push(column)?;
        let is_plain = known.joins_plain(arena.node(NodeId::new(k)));
        known.plain.push(is_plain)?;
    }
    Ok(known)
}

// What is known of a node at each event.
fn column_of(alloc: Global, scene: Scene<'_>, k: u32) -> Result<Vec<Option<bool>>, AllocError> {
    let mut column = Vec::new(alloc);
    for e in 0..scene.rules.events() {
        column.push(scene.node_value(k, e))?;
    }
    Ok(column)
}

// What is known of a conjunction.
fn both(left: Option<bool>, right: Option<bool>) -> Option<bool> {
    match (left, right) {
        (Some(false), _) | (_, Some(false)) => Some(false),
        (Some(true), Some(true)) => Some(true),
        _ => None,
    }
}

// What is known of a negation.
fn negated(value: Option<bool>) -> Option<bool> {
    match value {
        Some(value) => Some(!value),
        None => None,
    }
}

/// Whether event e comes at most so long after event f, in the log's unit of time: `Some(true)` where it does in each timing
/// that the log admits, `Some(false)` where in none, and None where in some alone.
pub fn order_value(tight: &Tight, e: u32, f: u32, c: i128) -> Option<bool>
    ensures always { (result ≡ Some true) ↔ ((extremes_of tight.now).greatest f e ≤ℤ c) }
    ensures never { result ≡ Some false → c <ℤ (extremes_of tight.now).least f e }
    ensures open { result ≡ None → (extremes_of tight.now).least f e ≤ℤ c }
{
    if greatest_between(tight, f, e) <= c {
        Some(true)
    } else if least_between(tight, f, e) > c {
        Some(false)
    } else {
        None
    }
}

impl Scene<'_> {
    // The value of a node by those of its parts.
    fn node_value(self, k: u32, e: u32) -> Option<bool> {
        if k >= self.arena.len() {
            return None;
        }
        match self.arena.node(NodeId::new(k)) {
            Core::True => Some(true),
            Core::Prop(_) => self.proposition_value(k, e),
            Core::Not(of) => negated(self.known.value(of.get(), e)),
            Core::And(left, right) => both(
                self.known.value(left.get(), e),
                self.known.value(right.get(), e),
            ),
            Core::Until(..) | Core::Since(..) => match self.rules.reach_at(k) {
                Some(u) => self.reach_value(&u, e),
                None => None,
            },
        }
    }

    // The value of a proposition: the same after all changes that it can follow, or true at a pulse.
    fn proposition_value(self, k: u32, e: u32) -> Option<bool> {
        let rows = self.rules.rows_at(k)?;
        let pulses = rows.pulses.as_slice();
        let places = self.pulses(pulses, e);
        let pulsed = places.start < places.end;
        for place in places {
            if pulses.get(place as usize).copied() == Some(e) {
                return Some(true);
            }
        }
        match self.changed_value(rows.changes.as_slice(), e) {
            Some(false) if pulsed => None,
            value => value,
        }
    }

    // The value after all changes that an event can follow.
    fn changed_value(self, changes: &[ChangeRow], e: u32) -> Option<bool> {
        let Some(first) = changes.first() else {
            return Some(false);
        };
        let mut value = None;
        if greatest_between(self.tight, e, first.row()) > 0 {
            value = Some(false);
        }
        for place in self.places(changes, e) {
            let set = sets_at(changes, place);
            if value.is_some() && value != set {
                return None;
            }
            value = set;
        }
        value
    }

    // The value of an until or a since by its witnesses: false where none can be, true where one must be.
    fn reach_value(self, u: &Reach, e: u32) -> Option<bool> {
        let mut value = Some(false);
        for placed in self.reached(u, e) {
            match self.witness_value(u, e, placed.row) {
                Some(true) => return Some(true),
                Some(false) => {}
                None => value = None,
            }
        }
        value
    }

    /// Whether event j is a witness of event i.
    pub fn witness_value(self, u: &Reach, i: u32, j: u32) -> Option<bool> {
        if is_dead(self.tight, u, i, j) {
            return Some(false);
        }
        let right = self.known.value(u.right, j);
        if right == Some(false) {
            return right;
        }
        let span = self.span_value(u, i, j);
        if right == Some(true) && self.is_always_within(u, i, j) {
            return span;
        }
        match span {
            Some(false) => span,
            _ => None,
        }
    }

    // Whether the distance of two events is always in the interval.
    fn is_always_within(self, u: &Reach, i: u32, j: u32) -> bool {
        is_always_from(u, nearest(self.tight, u.direction, i, j))
            && is_always_up_to(u, farthest(self.tight, u.direction, i, j))
    }

    /// Whether the left side is true from event i on, before event j.
    pub fn span_value(self, u: &Reach, i: u32, j: u32) -> Option<bool> {
        if i == j || self.rules.is_constant(u.left) {
            return Some(true);
        }
        let mut value = Some(true);
        for placed in self.between(u, i, j) {
            let m = placed.row;
            match self.known.value(u.left, m) {
                Some(true) => {}
                Some(false) if self.is_within(u, i, j, m) => return Some(false),
                _ if value.is_some() && self.can_be_within(u, i, j, m) => value = None,
                _ => {}
            }
        }
        value
    }

    // Whether event m can be from event i on, before event j.
    fn can_be_within(self, u: &Reach, i: u32, j: u32, m: u32) -> bool {
        m != j && !is_always_before(self.tight, u, m, i) && !is_never_before(self.tight, u, m, j)
    }

    /// Whether event m always is from event i on, before event j.
    pub fn is_within(self, u: &Reach, i: u32, j: u32, m: u32) -> bool {
        is_never_before(self.tight, u, m, i) && is_always_before(self.tight, u, m, j)
    }

    // Whether two events are at one instant.
    fn instant_value(self, e: u32, x: u32) -> Option<bool> {
        let (least, greatest) = (
            least_between(self.tight, e, x),
            greatest_between(self.tight, e, x),
        );
        if 0 < least || greatest < 0 {
            Some(false)
        } else if least == 0 && greatest == 0 {
            Some(true)
        } else {
            None
        }
    }

    /// Whether there is a gap at event m: there is none before event i, and none where the left side is true.
    pub fn gap_value(self, u: &Reach, i: u32, m: u32) -> Option<bool> {
        let is_none = is_always_before(self.tight, u, m, i)
            || self.known.value(u.left, m) == Some(true);
        if is_none { Some(false) } else { None }
    }

    // What is known of an atom of an until or a since.
    fn part_value(self, atom: Atom, k: u32) -> Option<bool> {
        let u = self.rules.reach_at(k)?;
        match atom {
            Atom::Wit { i, j, .. } => self.witness_value(&u, i, j),
            Atom::Span { i, j, .. } => self.span_value(&u, i, j),
            Atom::Gap { i, m, .. } => self.gap_value(&u, i, m),
            _ => None,
        }
    }

    // What is known of an atom.
    fn atom_value(self, atom: Atom) -> Option<bool> {
        match atom {
            Atom::Order { e, f, c } => order_value(self.tight, e, f, c),
            Atom::Node { k, e } => self.known.value(k, e),
            Atom::Wit { k, .. } | Atom::Span { k, .. } | Atom::Gap { k, .. } => {
                self.part_value(atom, k)
            }
            Atom::Same { e, x } => self.instant_value(e, x),
            Atom::First { .. } => None,
        }
    }

    /// Whether a literal is true in every timing, or in none, where it is known.
    pub fn literal_value(self, literal: Literal) -> Option<bool> {
        let value = self.atom_value(literal.atom);
        if literal.positive {
            value
        } else {
            negated(value)
        }
    }
}
