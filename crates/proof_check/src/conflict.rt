//! Whether the next line is right by its words, where it is a Cycle line.

ghost use Rattle.std.specs.Prelude.{◌≡◌, ◌↔◌, ◌+◌, ◌<◌, ◌≤◌, ◌^◌, ◌∷◌, [], ◌++◌, List, length, IfOk, IsTrue, MatchOption, OnOk};
ghost use Rattle.std.specs.List.{filter_map};
ghost use Rattle.mt_model.specs.declared.step.Step.{Step};
ghost use Rattle.mt_model.specs.Walks.{Conflict};
ghost use Rattle.axiom_rules.specs.declared.literal.Literal.{Literal};
ghost use Rattle.skew_bounds.specs.RowEdges.{IsEdgeTableOf};
ghost use Rattle.proof_log.specs.declared.line.Line.TheVariants.{Cycle};
ghost use Rattle.proof_log.specs.Derivations.{clause_of_line, negated_step as negated_step_of};
ghost use Rattle.proof_log.specs.Spelled.{IsSpelledStep};
ghost use Rattle.proof_check.specs.Keeping.{closed_only, with_closed, with_pending};
ghost use Rattle.proof_check.specs.Taking.{TakesSteps};
ghost use Rattle.proof_check.specs.WordsOf.{OfCycle, OfSteps};

use crate::clauses::negated_step;
use crate::cycle_walk::CycleWalk;
use crate::kept::Clauses;
use crate::walk::step_edge;
use axiom_rules::Rules;
use mt_model::Step;
use proof_log::{read_count, read_step};
use skew_bounds::EdgeTable;
use std::alloc::{AllocError, Global};

// Adds the negation of an order step to the pending clause.
fn push_negation(kept: &mut Clauses, step: Step) -> Result<(), AllocError>
    ensures negation { OnOk result (IsSpelledStep step → kept.new ≡ with_pending kept.old (filter_map negated_step_of (step ∷ []))) }
    ensures closed { OnOk result (kept.new.closed ≡ kept.old.closed) }
    ensures few { OnOk result (length kept.new.pending ≤ length kept.old.pending + 1) }
{
    if let Some(literal) = negated_step(step) {
        kept.push(literal)?;
    }
    Ok(())
}

// Walks over so many steps, which follow one after another, and adds the negations of order steps to the pending clause.
fn walked(
    rules: &Rules,
    table: &EdgeTable,
    kept: &mut Clauses,
    count: u32,
    words: &[u8],
) -> Result<Option<CycleWalk>, AllocError>
    requires table { IsEdgeTableOf rules.now.log table.now }
    ensures walked { IfOk result (λ found. OfSteps count words.now (λ steps. MatchOption found ⊥ (TakesSteps rules.now.log kept.old steps kept.new))) }
    ensures closed { IfOk result (λ _. kept.new.closed ≡ kept.old.closed) }
    ensures few { IfOk result (λ _. length kept.new.pending < length kept.old.pending + 2 ^ 32) }
{
    let mut walk = CycleWalk::new();
    let mut rest = words;
    for _i in 0..count {
        let Some((step, after)) = read_step(rest) else {
            return Ok(None);
        };
        walk = walk.then(step_edge(rules.log(), table, step));
        push_negation(kept, step)?;
        rest = after;
    }
    Ok(Some(walk))
}

/// Whether a Cycle line of these words is right. If so, its clause is closed.
pub fn takes_cycle(
    alloc: Global,
    rules: &Rules,
    table: &EdgeTable,
    kept: &mut Clauses,
    words: &[u8],
) -> Result<bool, AllocError>
    requires table { IsEdgeTableOf rules.now.log table.now }
    requires open { kept.old.pending ≡ [] }
    ensures conflict { IfOk result (λ b. OfCycle words.now (λ steps. IsTrue b ↔ Conflict rules.now.log steps)) }
    ensures grown { IfOk result (λ b. IsTrue b → (clause : List Literal) × (kept.new ≡ closed_only (kept.old.closed ++ clause ∷ []))) }
    ensures kept { IfOk result (λ b. OfCycle words.now (λ steps. IsTrue b → kept.new ≡ with_closed kept.old.closed (clause_of_line (Cycle steps)))) }
{
    let (count, steps) = read_count(words);
    let Some(walk) = walked(rules, table, kept, count, steps)? else {
        return Ok(false);
    };
    if !walk.is_negative_cycle() {
        return Ok(false);
    }
    // So that who cites it doesn't pay for its steps.
    kept.keep_first(alloc)?;
    kept.close()?;
    Ok(true)
}
