//! The search.

ghost use Rattle.std.specs.Prelude.{◌^◌, ◌<◌, ◌≤◌, ◌≡◌, ◌↔◌, ◌*◌, [], false, List, Some, length, All, IfNone, IfOk, IfSome, IsTrue};
ghost use Rattle.cdcl_core.specs.declared.found.Found.TheVariants as answer;
ghost use Rattle.proof_log.specs.declared.line.Line.{Line as ProofLine};
ghost use Rattle.mtl_encode.specs.declared.problem.Problem.{Problem};
ghost use Rattle.cdcl_core.specs.Founds.{IfSpent, IsFound, IsPosed, OfFitting};
ghost use Rattle.cdcl_core.specs.Searching.{IsSearch};
ghost use Rattle.cdcl_core.specs.Turns.{IsAnswer, RulesRefuteNone};

use crate::Found;
use crate::assignment::potentials_of;
use crate::descent::Descent;
use crate::state::SearchState;
use clause_db::Lit;
use difference_graph::graphs_are_solved;
use mtl_encode::Problem;
use proof_log::Lines;
use std::alloc::{AllocError, Global};

/// A model of the problem; lines that refute it, with fewer nonempty clauses learnt than the budget; or lines that derive,
/// with as many learnt as the budget. Of lines there are at most twice as many. The budget is a number of conflicts, from 1
/// to 1,000,000. An error is want of memory.
///
/// The problem fits some log, formula and value, and its edges alone have a solution.
pub fn search(alloc: Global, problem: Problem, budget: u32) -> Result<Found, AllocError>
    requires some { 1 ≤ budget }
    requires most { budget ≤ 1000000 }
    requires posed { IsPosed problem }
    ensures found { IfOk result (λ found. OfFitting problem (λ log f v. IsFound problem budget log f v found)) }

    // The budget isn't spent where it is three to the power of the number of atoms, or more; nor where
    // unit propagation over the rules alone refutes the value.
    ensures bounded { IfOk result (λ found. IfSpent found (budget < 3 ^ length problem.atoms)) }
    ensures refuted_by_rules { IfOk result (λ found. IfSpent found (RulesRefuteNone problem)) }
{
    match search_by(alloc, problem, &[], budget)? {
        Some(found) => Ok(found),
        None => unreachable!(),
    }
}

/// The same where these orders are assumed, and None where the search needed one of them that the bounds don't give, came
/// to nothing by it, or wrote too many lines of them: more than twice the budget in all. The literals come in the order of
/// their variables, once each.
pub fn search_by(
    alloc: Global,
    problem: Problem,
    assumed: &[Lit],
    budget: u32,
) -> Result<Option<Found>, AllocError>
    requires some { 1 ≤ budget }
    requires most { budget ≤ 1000000 }
    requires posed { IsPosed problem }
    requires within { All (λ l. l.var < length problem.atoms) assumed.now }
    requires few { length assumed.now ≤ length problem.atoms }
    ensures answer { IfOk result (λ o. IfSome o (IsAnswer problem budget)) }
    ensures none { IfOk result (λ o. IfNone o (assumed.now ≡ [] → ⊥)) }
{
    let mut state = SearchState::begin(alloc, problem, assumed)?;
    state.run(alloc, budget)
}

// Whether there are at most twice as many lines as the budget.
fn are_few(lines: &Lines, budget: u32) -> bool
    ensures few { IsTrue result ↔ length lines.now ≤ 2 * budget }
{
    lines.len() as u64 <= 2 * budget as u64
}

// The lines that refute, if there are some, and not too many.
fn refuted_within(lines: Option<Lines>, budget: u32) -> Option<Found>
    ensures some { IfSome result (λ found. (ls : List ProofLine) × (lines ≡ Some ls) × (found ≡ answer.Refuted ls) × (length ls ≤ 2 * budget)) }
    ensures none { IfNone result ((ls : List ProofLine) → lines ≡ Some ls → 2 * budget < length ls) }
{
    let lines = lines?;
    if are_few(&lines, budget) {
        Some(Found::Refuted(lines))
    } else {
        None
    }
}

impl SearchState {
    // Goes on from conflict to conflict until there is an answer or the budget is spent, or until an assumed order was
    // needed that the bounds don't give.
    fn run(&mut self, alloc: Global, budget: u32) -> Result<Option<Found>, AllocError>
        requires some { 1 ≤ budget }
        requires most { budget ≤ 1000000 }
        requires begun { (problem : Problem) × IsSearch problem self.old 0 }
        ensures answer { IfOk result (λ o. IfSome o (λ found. (problem : Problem) → IsSearch problem self.old 0 → IsAnswer problem budget found)) }
        ensures none { IfOk result (λ o. IfNone o (self.old.theory.whole ≡ false)) }
    {
        'conflicts: for _conflict in 0..budget {
            match self.descend(alloc)? {
                Descent::Met(values) => {
                    graphs_are_solved(&self.graph);
                    let potentials = potentials_of(alloc, &self.graph, self.theory.nodes)?;
                    return Ok(Some(Found::Model { values, potentials }));
                }
                Descent::Stopped(conflict) => {
                    let clause = self.conflict_clause(alloc, conflict)?;
                    if self.trail.level() == 0 {
                        let lines = self.refuted(alloc, clause)?;
                        return Ok(refuted_within(lines, budget));
                    }
                    if !self.learn_clause(alloc, clause)? {
                        return Ok(None);
                    }
                }
                Descent::Lost => return Ok(None),
            }
        }
        let lines = self.derived.take_lines(alloc);
        if are_few(&lines, budget) {
            Ok(Some(Found::Spent(lines)))
        } else {
            Ok(None)
        }
    }
}
