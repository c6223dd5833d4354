//! The clauses of lines.

ghost use Rattle.std.specs.Prelude.{◌≡◌, ◌↔◌, ◌+◌, length, IsTrue, option_copied};
ghost use Rattle.axiom_rules.specs.Sought.{Sought};
ghost use Rattle.proof_log.specs.Derivations.{IsEmptyAt, clause_of_hint, negated_step as negated_step_of};
ghost use Rattle.proof_log.specs.Spelled.{IsSpelledStep};
ghost use Rattle.proof_log.specs.declared.line.Hint.TheVariants as hint;
ghost use Rattle.proof_check.specs.Keeping.{lines_with};

use crate::kept::Clauses;
use axiom_rules::{Literal, order_literal};
use mt_model::{MAX_ORDER, Step};

/// The negation of an order step that has a spelling, and None for any other step.
pub fn negated_step(step: Step) -> Option<Literal>
    ensures { IsSpelledStep step → result ≡ negated_step_of step }
{
    match step {
        Step::Order { e, f, c } if e != f && -MAX_ORDER <= c && c <= MAX_ORDER => {
            Some(order_literal(e, f, c).negated())
        }
        _ => None,
    }
}

/// The clause of line m, where it is one of the lines whose clauses are kept.
pub fn cited_clause(kept: &Clauses, m: u32) -> Option<&[Literal]>
    ensures { (s : Sought) → option_copied result ≡ clause_of_hint s (lines_with kept.now.closed) (length kept.now.closed + 1) (hint.Line m) }
{
    let place = m.checked_sub(1)? as usize;
    kept.get(place)
}

/// Whether the last of the lines whose clauses are kept, if there is one, has an empty clause.
pub fn ends_empty(kept: &Clauses) -> bool
    ensures { IsTrue result ↔ IsEmptyAt (lines_with kept.now.closed) (length kept.now.closed) }
{
    match kept.last() {
        Some(clause) => clause.is_empty(),
        None => false,
    }
}
