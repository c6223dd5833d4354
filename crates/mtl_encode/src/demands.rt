//! What a literal asks for: the instances that say what follows from it.

use crate::needless::is_dead;
use crate::scene::{Scene, sets_at};
use axiom_rules::{
    Atom, CHANGE_LASTS, CONJUNCTION_COVERS, CONJUNCTION_HAS_LEFT, CONJUNCTION_HAS_RIGHT,
    CONSTANT_IS_TRUE, FIRST_HAS_VALUE, FIRST_IS_NOT_AFTER, FREE_WITNESS_COVERS, GAP_IS_AHEAD,
    GAP_LACKS_LEFT, INSTANT_COVERS, INSTANT_IS_NOT_AFTER, Literal, NEGATION_COVERS,
    NEGATION_EXCLUDES, PULSE_GIVES_TRUTH, Rule, SPAN_HAS_LEFT, SPAN_OR_GAP, SPAN_UP_TO_GAP,
    TRUTH_HAS_CAUSE, TRUTH_HAS_WITNESS, WITNESS_COVERS, WITNESS_GIVES_TRUTH, WITNESS_HAS_RIGHT,
    WITNESS_HAS_SPAN, WITNESS_IS_FROM, WITNESS_IS_UP_TO,
};
use formula_arena::{Core, Direction};
use mt_model::NodeId;
use question::greatest_between;
use std::alloc::AllocError;

// Where demands go, and what is known of the question.
#[derive(Drop)]
struct Asking<'a> {
    scene: Scene<'a>,
    demands: &'a mut Vec<Rule>,
}

impl Asking<'_> {
    fn add(&mut self, number: u8, args: [u32; 4]) -> Result<(), AllocError> {
        self.demands.push(Rule { number, args })?;
        Ok(())
    }

    // A proposition: the changes that it can follow.
    fn ask_proposition(&mut self, k: u32, e: u32, positive: bool) -> Result<(), AllocError> {
        let Some(rows) = self.scene.rules.rows_at(k) else {
            return Ok(());
        };
        let changes = rows.changes.as_slice();
        if positive {
            self.add(TRUTH_HAS_CAUSE, [k, e, 0, 0])?;
        }
        for place in self.scene.places(changes, e) {
            if sets_at(changes, place) != Some(positive) {
                self.add(CHANGE_LASTS, [k, e, place, 0])?;
            }
        }
        if !positive {
            for place in self.scene.pulses(rows.pulses.as_slice(), e) {
                self.add(PULSE_GIVES_TRUTH, [k, e, place, 0])?;
            }
        }
        Ok(())
    }

    // An until or a since.
    fn ask_reach(&mut self, k: u32, e: u32, positive: bool) -> Result<(), AllocError> {
        if positive {
            return self.add(TRUTH_HAS_WITNESS, [k, e, 0, 0]);
        }
        let Some(u) = self.scene.rules.reach_at(k) else {
            return Ok(());
        };
        for placed in self.scene.reached(&u, e) {
            if !is_dead(self.scene.tight, &u, e, placed.row) {
                self.add(WITNESS_GIVES_TRUTH, [k, e, placed.row, 0])?;
            }
        }
        Ok(())
    }

    fn ask_node(&mut self, k: u32, e: u32, positive: bool) -> Result<(), AllocError> {
        if k >= self.scene.arena.len() {
            return Ok(());
        }
        let args = [k, e, 0, 0];
        match self.scene.arena.node(NodeId::new(k)) {
            Core::True if positive => Ok(()),
            Core::True => self.add(CONSTANT_IS_TRUE, args),
            Core::Prop(_) => self.ask_proposition(k, e, positive),
            Core::Not(_) if positive => self.add(NEGATION_EXCLUDES, args),
            Core::Not(_) => self.add(NEGATION_COVERS, args),
            Core::And(..) if positive => {
                self.add(CONJUNCTION_HAS_LEFT, args)?;
                self.add(CONJUNCTION_HAS_RIGHT, args)
            }
            Core::And(..) => self.add(CONJUNCTION_COVERS, args),
            Core::Until(..) | Core::Since(..) => self.ask_reach(k, e, positive),
        }
    }

    fn ask_first(&mut self, e: u32) -> Result<(), AllocError> {
        let earliest = self.scene.windows.earliest();
        if greatest_between(self.scene.tight, e, earliest) < 0 {
            return self.add(FIRST_IS_NOT_AFTER, [e, earliest, 0, 0]);
        }
        for placed in self
            .scene
            .windows
            .between(i128::MIN, self.scene.greatest(e))
        {
            self.add(FIRST_IS_NOT_AFTER, [e, placed.row, 0, 0])?;
        }
        self.add(FIRST_HAS_VALUE, [e, 0, 0, 0])
    }

    fn ask_witness(&mut self, args: [u32; 4], positive: bool) -> Result<(), AllocError> {
        let [k, i, j, _] = args;
        let Some(u) = self.scene.rules.reach_at(k) else {
            return Ok(());
        };
        let is_free = self.scene.rules.is_constant(u.left);
        if !positive {
            let number = if is_free {
                FREE_WITNESS_COVERS
            } else {
                WITNESS_COVERS
            };
            return self.add(number, args);
        }
        self.add(WITNESS_IS_FROM, args)?;
        self.add(WITNESS_IS_UP_TO, args)?;
        self.add(WITNESS_HAS_RIGHT, args)?;
        if is_free {
            return Ok(());
        }
        self.add(WITNESS_HAS_SPAN, args)
    }

    // A span, with what says that it holds in both senses: so its value can be told before those of the gaps.
    fn ask_span(&mut self, args: [u32; 4], positive: bool) -> Result<(), AllocError> {
        let [k, i, j, _] = args;
        let Some(u) = self.scene.rules.reach_at(k) else {
            return Ok(());
        };
        for placed in self.scene.between(&u, i, j) {
            self.add(SPAN_HAS_LEFT, [k, i, j, placed.row])?;
        }
        if positive {
            return Ok(());
        }
        self.add(SPAN_OR_GAP, args)?;
        let beyond = match u.direction {
            Direction::Ahead => self.scene.windows.between(self.scene.least(j), i128::MAX),
            Direction::Behind => self
                .scene
                .windows
                .between(i128::MIN, self.scene.greatest(j)),
        };
        for placed in beyond {
            if self.scene.gap_value(&u, i, placed.row).is_none() {
                self.add(SPAN_UP_TO_GAP, [k, i, j, placed.row])?;
            }
        }
        Ok(())
    }

    // A gap, but for one that is always further than the interval reaches: that there is no span up to an event in reach
    // says by itself that there is no such gap.
    fn ask_gap(&mut self, args: [u32; 4]) -> Result<(), AllocError> {
        let [k, i, m, _] = args;
        let Some(u) = self.scene.rules.reach_at(k) else {
            return Ok(());
        };
        if self.scene.is_too_far(&u, i, m) {
            return Ok(());
        }
        self.add(GAP_IS_AHEAD, args)?;
        self.add(GAP_LACKS_LEFT, args)
    }

    fn ask_instant(&mut self, e: u32, x: u32, positive: bool) -> Result<(), AllocError> {
        if !positive {
            return self.add(INSTANT_COVERS, [e, x, 0, 0]);
        }
        if greatest_between(self.scene.tight, e, x) < 0 {
            return self.add(INSTANT_IS_NOT_AFTER, [e, x, 0, 0]);
        }
        self.add(INSTANT_IS_NOT_AFTER, [x, e, 0, 0])?;
        self.add(INSTANT_IS_NOT_AFTER, [e, x, 0, 0])
    }

    // A node that isn't true, or isn't false.
    fn refute_node(&mut self, k: u32, e: u32, positive: bool) -> Result<(), AllocError> {
        let args = [k, e, 0, 0];
        if k >= self.scene.arena.len() {
            return Ok(());
        }
        match self.scene.arena.node(NodeId::new(k)) {
            Core::And(left, _) if positive => {
                let is_left = self.scene.known.value(left.get(), e) == Some(false);
                let number = if is_left {
                    CONJUNCTION_HAS_LEFT
                } else {
                    CONJUNCTION_HAS_RIGHT
                };
                self.add(number, args)
            }
            Core::Until(..) | Core::Since(..) if !positive => self.refute_reach(k, e),
            _ => self.ask_node(k, e, positive),
        }
    }

    // An until or a since that isn't false: one witness that there always is.
    fn refute_reach(&mut self, k: u32, e: u32) -> Result<(), AllocError> {
        let Some(u) = self.scene.rules.reach_at(k) else {
            return Ok(());
        };
        for placed in self.scene.reached(&u, e) {
            if self.scene.witness_value(&u, e, placed.row) == Some(true) {
                return self.add(WITNESS_GIVES_TRUTH, [k, e, placed.row, 0]);
            }
        }
        Ok(())
    }

    // A witness that is none: by the right side rather than by the distance, since a node's value at an event is one for all
    // that look at it, and each distance takes a line of its own.
    fn refute_witness(&mut self, args: [u32; 4]) -> Result<(), AllocError> {
        let [k, i, j, _] = args;
        let Some(u) = self.scene.rules.reach_at(k) else {
            return Ok(());
        };
        let number = if self.scene.known.value(u.right, j) == Some(false) {
            WITNESS_HAS_RIGHT
        } else if self.scene.is_too_near(&u, i, j) {
            WITNESS_IS_FROM
        } else if self.scene.is_too_far(&u, i, j) {
            WITNESS_IS_UP_TO
        } else {
            WITNESS_HAS_SPAN
        };
        self.add(number, args)
    }

    // A span over which the left side isn't true: one event at which it isn't.
    fn refute_span(&mut self, args: [u32; 4]) -> Result<(), AllocError> {
        let [k, i, j, _] = args;
        let Some(u) = self.scene.rules.reach_at(k) else {
            return Ok(());
        };
        for placed in self.scene.between(&u, i, j) {
            let m = placed.row;
            if self.scene.is_within(&u, i, j, m)
                && self.scene.known.value(u.left, m) == Some(false)
            {
                return self.add(SPAN_HAS_LEFT, [k, i, j, m]);
            }
        }
        Ok(())
    }

    // A gap that is none: by the left side rather than by the times, for the same reason.
    fn refute_gap(&mut self, args: [u32; 4]) -> Result<(), AllocError> {
        let [k, i, m, _] = args;
        let Some(u) = self.scene.rules.reach_at(k) else {
            return Ok(());
        };
        let is_left = self.scene.known.value(u.left, m) == Some(true);
        let number = if is_left {
            GAP_LACKS_LEFT
        } else {
            GAP_IS_AHEAD
        };
        self.add(number, args)
    }

    // Adds what says that a literal that is never true isn't.
    fn refute(&mut self, literal: Literal) -> Result<(), AllocError> {
        let positive = literal.positive;
        match literal.atom {
            Atom::Node { k, e } => self.refute_node(k, e, positive),
            Atom::Wit { k, i, j } if positive => self.refute_witness([k, i, j, 0]),
            Atom::Span { k, i, j } if positive => self.refute_span([k, i, j, 0]),
            Atom::Gap { k, i, m } if positive => self.refute_gap([k, i, m, 0]),
            _ => self.follow(literal),
        }
    }

    // Adds what follows from a literal.
    fn follow(&mut self, literal: Literal) -> Result<(), AllocError> {
        let positive = literal.positive;
        match literal.atom {
            Atom::Node { k, e } => self.ask_node(k, e, positive),
            Atom::Wit { k, i, j } => self.ask_witness([k, i, j, 0], positive),
            Atom::Span { k, i, j } => self.ask_span([k, i, j, 0], positive),
            Atom::Same { e, x } => self.ask_instant(e, x, positive),
            Atom::First { e } if positive => self.ask_first(e),
            Atom::Gap { k, i, m } if positive => self.ask_gap([k, i, m, 0]),
            Atom::Order { .. } | Atom::First { .. } | Atom::Gap { .. } => Ok(()),
        }
    }

    // Adds what a literal asks for: nothing where it is always true, and what refutes it where it never is.
    fn ask(&mut self, literal: Literal) -> Result<(), AllocError> {
        match self.scene.literal_value(literal) {
            Some(true) => Ok(()),
            Some(false) => self.refute(literal),
            None => self.follow_both(literal),
        }
    }

    // Adds what follows from a literal, and where it is about a node without untils and sinces from its negation too: with
    // clauses of both senses what is found of a proposition goes both ways. Of an until they would ask for all its
    // witnesses.
    fn follow_both(&mut self, literal: Literal) -> Result<(), AllocError> {
        self.follow(literal)?;
        match literal.atom {
            Atom::Node { k, .. } if self.scene.known.is_plain(k) => self.follow(literal.negated()),
            _ => Ok(()),
        }
    }
}

// Where an instance stands among those of one literal: by its number, and then by its arguments. So the clauses of a head
// are gone through in the order of the log.
fn rank(rule: Rule) -> u128 {
    let [_, second, third, fourth] = rule.args;
    let args = (second as u128) << 64 | (third as u128) << 32 | fourth as u128;
    (rule.number as u128) << 96 | args
}

/// Adds the instances that a literal asks for, in order: what has to hold where it is true.
pub fn demands_of(
    scene: Scene<'_>,
    literal: Literal,
    demands: &mut Vec<Rule>,
) -> Result<(), AllocError> {
    let mut asking = Asking { scene, demands };
    asking.ask(literal)?;
    demands.sort_unstable_by_key(|rule| rank(*rule));
    Ok(())
}
