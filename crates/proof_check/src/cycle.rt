//! Which lists of steps are closed walks of negative sum.

ghost use Rattle.std.specs.Prelude.{◌≡◌, ◌↔◌, ◌<◌, ◌^◌, length, IfSome, List, None, ℤ};
ghost use Rattle.mt_model.specs.Timing.{Admissible};
ghost use Rattle.proof_check.specs.Cycles.{IsCycle, IsPlace};

use crate::cycle_walk::CycleWalk;
use crate::walk::bound_edge;
use mt_model::{Log, Step};

/// None exactly where the steps are bounds of the log and form a closed walk of negative sum, which leaves the log no
/// timing. Otherwise the first step, counted from 1, that isn't a bound of the log or doesn't begin where the one before
/// ends; where there is none such, the number of the last step, and 0 for an empty list. Takes no memory.
pub fn check_cycle(log: &Log, steps: &[Step]) -> Option<u32>
    requires few { length steps.now < 2 ^ 32 }
    ensures accepted { (result ≡ None) ↔ IsCycle log.now steps.now }
    ensures place { IfSome result (λ n. IsPlace log.now steps.now n) }
    ensures excludes { result ≡ None → (t : List ℤ) → Admissible log.now t → ⊥ }
{
    let mut walk = CycleWalk::new();
    for step in steps {
        walk = walk.then(bound_edge(log, None, *step));
    }
    walk.place()
}
