//! What rules write: literals, and constants that are known from a rule's arguments.

ghost use Rattle.std.specs.Prelude.{◌≡◌, ◌^◌, pos, ◌-ℤ◌, neg_ℤ};
ghost use Rattle.mt_model.specs.Log.{IsWithin};
ghost use Rattle.axiom_rules.specs.Parts.{after as after_part, not_after as not_after_part, not_order as not_order_part, not_same as not_same_part, order as order_part, same as same_part};
ghost use Rattle.axiom_rules.specs.Rules.{is as is_part, is_not as is_not_part};

use crate::literal::{Atom, Literal, one_instant, order_literal};
use mt_model::MAX_ORDER;

/// A part of what a rule writes: a literal, or a constant that is known from the rule's arguments.
#[derive(Clone, Copy)]
pub enum Part {
    Says(Literal),
    Known(bool),
}

/// The atom holds.
pub fn is(atom: Atom) -> Part
    ensures { result ≡ is_part atom }
{
    Part::Says(Literal {
        atom,
        positive: true,
    })
}

/// The atom doesn't hold.
pub fn is_not(atom: Atom) -> Part
    ensures { result ≡ is_not_part atom }
{
    Part::Says(Literal {
        atom,
        positive: false,
    })
}

/// `t_e - t_f <= c`.
pub fn order(e: u32, f: u32, c: i128) -> Part
    requires { IsWithin MAX_ORDER c }
    ensures { result ≡ order_part e f c }
{
    if e == f {
        Part::Known(0 <= c)
    } else {
        Part::Says(order_literal(e, f, c))
    }
}

// The bound of what is said where `t_e - t_f <= c` is denied.
fn denied(c: i128) -> i128
    requires { IsWithin (pos (2 ^ 64)) c }
    ensures bound { result ≡ neg_ℤ c -ℤ pos 1 }
    ensures range { IsWithin MAX_ORDER result }
{
    -c - 1
}

/// Not `t_e - t_f <= c`.
pub fn not_order(e: u32, f: u32, c: i128) -> Part
    requires { IsWithin (pos (2 ^ 64)) c }
    ensures { result ≡ not_order_part e f c }
{
    order(f, e, denied(c))
}

/// Event e is not after event f.
pub fn not_after(e: u32, f: u32) -> Part
    ensures { result ≡ not_after_part e f }
{
    order(e, f, 0)
}

/// Event e is after event f.
pub fn after(e: u32, f: u32) -> Part
    ensures { result ≡ after_part e f }
{
    order(f, e, -1)
}

/// Events e and x are at one instant.
pub fn same(e: u32, x: u32) -> Part
    ensures { result ≡ same_part e x }
{
    if e == x {
        Part::Known(true)
    } else {
        is(one_instant(e, x))
    }
}

/// Events e and x aren't at one instant.
pub fn not_same(e: u32, x: u32) -> Part
    ensures { result ≡ not_same_part e x }
{
    if e == x {
        Part::Known(false)
    } else {
        is_not(one_instant(e, x))
    }
}
