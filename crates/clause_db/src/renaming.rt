//! Literals over other variables.

ghost use Rattle.std.specs.Prelude.{◌≡◌, ◌<◌, length, map, All};
ghost use Rattle.clause_db.specs.Renaming.{moved};

use crate::{Lit, Var};

/// Turns each literal of a variable v to that of variable `places[v]`, of the same sense.
pub fn rename(lits: &mut [Lit], places: &[u32])
    requires below { All (λ l. l.var < length places.now) lits.old }
    ensures literals { lits.new ≡ map (moved places.now) lits.old }
{
    for lit in lits.iter_mut() {
        *lit = renamed_lit(*lit, places);
    }
}

// What a literal is turned to.
fn renamed_lit(lit: Lit, places: &[u32]) -> Lit
    requires below { lit.var < length places.now }
    ensures literal { result ≡ moved places.now lit }
{
    let place = lit.var().get() as usize;
    Lit::new(Var::new(places[place]), lit.positive())
}
