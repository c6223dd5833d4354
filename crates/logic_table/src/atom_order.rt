//! Problems whose atoms stand in another order, of which the contract of a search doesn't speak. To read values off a
//! timing in one pass, what an atom follows from has to come before it; where it comes after, the trail fills in.

ghost use Rattle.std.specs.Prelude.{◌≡◌, IfOk};
ghost use Rattle.cdcl_core.specs.Founds.{IsPosed};
ghost use Rattle.logic_table.specs.AtomOrders.{AreLastFirst, AreReversed};

use clause_db::Var;
use mtl_encode::Problem;
use std::alloc::{AllocError, Global};

/// In which order the atoms of a problem stand.
#[derive(Clone, Copy)]
pub enum AtomOrder {
    /// That of the encoding: the orders, and then each atom after those that it follows from.
    PartsFirst,
    /// The opposite one.
    PartsLast,
}

// So many places, the last one first.
fn last_first(alloc: Global, count: u32) -> Result<Vec<u32>, AllocError>
    ensures { IfOk result (λ places. AreLastFirst count places.items) }
{
    let mut places = Vec::new(alloc);
    for place in 0..count {
        places.push(count - 1 - place)?;
    }
    Ok(places)
}

// The variables of these numbers.
fn vars_of(alloc: Global, numbers: &[u32]) -> Result<Vec<Var>, AllocError>
    ensures { IfOk result (λ vars. vars.items ≡ numbers.now) }
{
    let mut vars = Vec::new(alloc);
    for number in numbers {
        vars.push(Var::new(*number))?;
    }
    Ok(vars)
}

// The problem with its last atom first.
fn reversed(alloc: Global, problem: Problem) -> Result<Problem, AllocError>
    requires posed { IsPosed problem }
    ensures posed { IfOk result IsPosed }
    ensures reversed { IfOk result (λ r. AreReversed problem.atoms r.atoms) }
{
    let Problem {
        db,
        rules,
        atoms,
        bounds,
        edges,
        nodes,
    } = problem;
    let places = last_first(alloc, atoms.len())?;
    let vars = vars_of(alloc, &places)?;
    let atoms = atoms.taken(alloc, &vars)?;
    Ok(Problem {
        db: db.renamed(&places),
        rules,
        atoms,
        bounds,
        edges,
        nodes,
    })
}

/// The problem with its atoms in this order.
pub fn ordered(alloc: Global, problem: Problem, order: AtomOrder) -> Result<Problem, AllocError>
    requires posed { IsPosed problem }
    ensures posed { IfOk result IsPosed }
{
    match order {
        AtomOrder::PartsFirst => Ok(problem),
        AtomOrder::PartsLast => reversed(alloc, problem),
    }
}
