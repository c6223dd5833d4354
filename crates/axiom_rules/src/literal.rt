//! Statements about a timing, and their negations.

ghost use Rattle.std.specs.Prelude.{◌≡◌, ◌≢◌};
ghost use Rattle.mt_model.specs.Log.{IsWithin};
ghost use Rattle.axiom_rules.specs.Literals.{negated as negated_literal, one_instant as atom_of_one_instant, order_literal as literal_of_order};

use mt_model::MAX_ORDER;

/// A statement about a timing. Nodes and events count from 0; `t_e` is the true time of event e.
#[derive(Clone, Copy, PartialEq, Eq, PartialOrd, Ord)]
pub enum Atom {
    /// `t_e - t_f <= c`, where e is the smaller event.
    Order { e: u32, f: u32, c: i128 },
    /// The formula of node k is true at the position of event e.
    Node { k: u32, e: u32 },
    /// No event is earlier than e.
    First { e: u32 },
    /// `t_e = t_x`, where e is the smaller event.
    Same { e: u32, x: u32 },
    /// Event j is a witness of the until or since node k at event i: at a distance in its interval, with
    /// its right side true there, and its left side from event i on up to there.
    Wit { k: u32, i: u32, j: u32 },
    /// The left side of the until node k is true at each position from event i's on that is before
    /// event j's; of a since, at each position after event j's that is not after event i's.
    Span { k: u32, i: u32, j: u32 },
    /// Event m is a first one, from event i on, at which the left side of the until node k is false; of a
    /// since, a last one up to event i.
    Gap { k: u32, i: u32, m: u32 },
}

/// An atom, or that it doesn't hold.
#[derive(Clone, Copy, PartialEq, Eq, PartialOrd, Ord)]
pub struct Literal {
    pub atom: Atom,
    pub positive: bool,
}

impl Literal {
    /// The literal of the other sense.
    pub fn negated(&self) -> Literal
        ensures literal { result ≡ negated_literal self.now }
    {
        Literal {
            atom: self.atom,
            positive: !self.positive,
        }
    }
}

/// A literal for the unused places of a small vector.
impl Default for Literal {
    fn default() -> Literal {
        Literal {
            atom: Atom::First { e: 0 },
            positive: true,
        }
    }
}

/// The one literal that means `t_e - t_f <= c`, for two different events and |c| at most 10^21.
pub fn order_literal(e: u32, f: u32, c: i128) -> Literal
    requires apart { e ≢ f }
    requires bound { IsWithin MAX_ORDER c }
    ensures literal { result ≡ literal_of_order e f c }
{
    if e < f {
        Literal {
            atom: Atom::Order { e, f, c },
            positive: true,
        }
    } else {
        Literal {
            atom: Atom::Order {
                e: f,
                f: e,
                c: -c - 1,
            },
            positive: false,
        }
    }
}

/// The one atom that means `t_e = t_x`, for two different events.
pub fn one_instant(e: u32, x: u32) -> Atom
    requires apart { e ≢ x }
    ensures atom { result ≡ atom_of_one_instant e x }
{
    if e < x {
        Atom::Same { e, x }
    } else {
        Atom::Same { e: x, x: e }
    }
}
