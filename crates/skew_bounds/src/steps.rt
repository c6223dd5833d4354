//! The steps of walks that are bounds of a log.

ghost use Rattle.std.specs.Prelude.{◌≡◌, MatchOption};
ghost use Rattle.mt_model.specs.Bounds.{step_of as step_of_bound};
ghost use Rattle.mt_model.specs.Laws.{IsBound};

use mt_model::{Bound, EventId, Step};

/// A bound as a step of a walk.
pub fn step_of(bound: Bound) -> Step
    ensures step { result ≡ step_of_bound bound }
{
    match bound {
        Bound::Low(e) => Step::Low(e.get()),
        Bound::High(e) => Step::High(e.get()),
        Bound::Rise(f) => Step::Rise(f.get()),
        Bound::Message(r) => Step::Message(r.get()),
        Bound::Late(r) => Step::Late(r.get()),
        Bound::Under(e) => Step::Under(e.get()),
        Bound::Over(e) => Step::Over(e.get()),
        Bound::Extra(k) => Step::Extra(k),
    }
}

/// The bound of a log that a step is; an order of two events is none.
pub fn bound_of(step: Step) -> Option<Bound>
    ensures bound { MatchOption result (IsBound step → ⊥) (λ b. step_of_bound b ≡ step) }
{
    match step {
        Step::Low(e) => Some(Bound::Low(EventId::new(e))),
        Step::High(e) => Some(Bound::High(EventId::new(e))),
        Step::Rise(f) => Some(Bound::Rise(EventId::new(f))),
        Step::Message(r) => Some(Bound::Message(EventId::new(r))),
        Step::Late(r) => Some(Bound::Late(EventId::new(r))),
        Step::Under(e) => Some(Bound::Under(EventId::new(e))),
        Step::Over(e) => Some(Bound::Over(EventId::new(e))),
        Step::Extra(k) => Some(Bound::Extra(k)),
        Step::Order { .. } => None,
    }
}
