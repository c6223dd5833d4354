//! A walk over the edges of bounds and of order literals, as steps and as a clause.

ghost use Rattle.std.specs.Prelude.{◌≡◌, ◌+◌, ◌<◌, length, map, All, IfOk, Some};
ghost use Rattle.cdcl_core.specs.Orders.{read_lit};
ghost use Rattle.cdcl_core.specs.Walking.{AreOrders, denied_in, step_in};

use crate::difference::order_step;
use axiom_rules::{AtomTable, Literal};
use clause_db::Lit;
use mt_model::{Bound, Step, Steps};
use skew_bounds::step_of;
use std::alloc::{AllocError, Global};

// The literal of an atom that a literal of its variable stands for.
pub fn literal_of(atoms: &AtomTable, lit: Lit) -> Literal
    requires within { lit.var < length atoms.now }
    ensures literal { result ≡ read_lit atoms.now lit }
{
    Literal {
        atom: atoms.atom(lit.var()),
        positive: lit.positive(),
    }
}

// The step at a place: first come those of the bounds, then those of the order literals.
fn step_at(bounds: &[Bound], orders: &[Lit], atoms: &AtomTable, place: u32) -> Step
    requires within { place < length bounds.now + length orders.now }
    requires orders { AreOrders atoms.now orders.now }
    ensures step { Some result ≡ step_in bounds.now atoms.now orders.now place }
{
    let place = place as usize;
    if place < bounds.len() {
        return step_of(bounds[place]);
    }
    match order_step(literal_of(atoms, orders[place - bounds.len()])) {
        Some(step) => step,
        None => unreachable!(),
    }
}

/// The steps of a walk over the edges of the bounds and then of these order literals.
pub fn steps_of(
    alloc: Global,
    bounds: &[Bound],
    orders: &[Lit],
    atoms: &AtomTable,
    walk: &[u32],
) -> Result<Steps, AllocError>
    requires within { All (λ p. p < length bounds.now + length orders.now) walk.now }
    requires orders { AreOrders atoms.now orders.now }
    ensures steps { IfOk result (λ steps. map (step_in bounds.now atoms.now orders.now) walk.now ≡ map Some steps) }
{
    let mut steps = Steps::new(alloc);
    for place in walk {
        steps.push(step_at(bounds, orders, atoms, *place))?;
    }
    Ok(steps)
}

/// The clause that not all order literals of such a walk hold: their negations, in the order of the walk.
pub fn denied(
    alloc: Global,
    base: usize,
    orders: &[Lit],
    walk: &[u32],
) -> Result<Vec<Lit>, AllocError>
    requires within { All (λ p. p < base + length orders.now) walk.now }
    ensures clause { IfOk result (λ v. v.items ≡ denied_in base orders.now walk.now) }
{
    let mut lits = Vec::new(alloc);
    for place in walk {
        let place = *place as usize;
        if place >= base {
            lits.push(orders[place - base].negated())?;
        }
    }
    Ok(lits)
}
