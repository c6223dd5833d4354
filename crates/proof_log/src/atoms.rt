//! Whether atoms differ.

ghost use Rattle.std.specs.Prelude.{◌≡◌, ◌≢◌, ◌↔◌, AllPairs, IfOk, IsTrue, map};

use axiom_rules::{Atom, Literal};
use std::alloc::{AllocError, Global};

/// Whether no two atoms are equal. They are left sorted.
pub fn are_apart(atoms: &mut [Atom]) -> bool
    ensures { IsTrue result ↔ AllPairs (λ a b. a ≢ b) atoms.old }
{
    atoms.sort_unstable();
    for next in 1..atoms.len() {
        if atoms[next - 1] == atoms[next] {
            return false;
        }
    }
    true
}

// The atoms of literals, in their order.
fn atoms_of(alloc: Global, lits: &[Literal]) -> Result<Vec<Atom>, AllocError>
    ensures { IfOk result (λ atoms. atoms.items ≡ map (λ l. l.atom) lits.now) }
{
    let mut atoms = Vec::with_capacity(alloc, lits.len())?;
    for literal in lits {
        atoms.push(literal.atom)?;
    }
    Ok(atoms)
}

/// Whether no atom stands twice. The error only says that memory ran out.
///
/// The atoms are compared, not hashed, since atoms could be chosen that share a hash.
pub fn has_atoms_once(alloc: Global, lits: &[Literal]) -> Result<bool, AllocError>
    ensures once { IfOk result (λ b. IsTrue b ↔ AllPairs (λ l m. m.atom ≡ l.atom → ⊥) lits.now) }
{
    if lits.len() < 2 {
        return Ok(true);
    }
    let mut atoms = atoms_of(alloc, lits)?;
    Ok(are_apart(&mut atoms))
}
