//! The orders that the bounds of a log decide by themselves.

ghost use Rattle.std.specs.Prelude.{◌≤◌, ◌<◌, length, All, IfOk};

use axiom_rules::{Atom, AtomTable};
use clause_db::{Lit, Var};
use mtl_encode::order_value;
use skew_bounds::Tight;
use std::alloc::{AllocError, Global};

// The value that an atom has in every timing, if it is an order and has one. That it is so is tested where a line says it.
fn value_by_bounds(tight: &Tight, atom: Atom) -> Option<bool> {
    match atom {
        Atom::Order { e, f, c } => order_value(tight, e, f, c),
        Atom::Node { .. } | Atom::First { .. } | Atom::Same { .. } => None,
        Atom::Wit { .. } | Atom::Span { .. } | Atom::Gap { .. } => None,
    }
}

/// The order literals that hold in every timing, in the order of their variables.
pub fn decided_by(alloc: Global, atoms: &AtomTable, tight: &Tight) -> Result<Vec<Lit>, AllocError>
    ensures within { IfOk result (λ v. All (λ l. l.var < length atoms.now) v.items) }
    ensures few { IfOk result (λ v. length v.items ≤ length atoms.now) }
{
    let mut lits = Vec::new(alloc);
    for v in 0..atoms.len() {
        let var = Var::new(v);
        if let Some(value) = value_by_bounds(tight, atoms.atom(var)) {
            lits.push(Lit::new(var, value))?;
        }
    }
    Ok(lits)
}
