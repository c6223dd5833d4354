//! The search of the instances of rules that a value asks for, and of no others.

ghost use Rattle.std.specs.Prelude.{◌<◌, length, IfOk, IfSome};
ghost use Rattle.mt_model.specs.Timing.{Admissible};
ghost use Rattle.skew_bounds.specs.RowTimes.{times_of as times_in};
ghost use Rattle.skew_bounds.specs.Tight.{IsTight};
ghost use Rattle.cdcl_core.specs.Values.{GivesValue, IsSearched};

use crate::decided::decided_by;
use crate::main_loop::search_by;
use crate::{Budget, Found, Searched};
use mt_model::{Times, bounds_are_admissible, log_is_valid};
use mtl_encode::{Most, Part, encode_asked};
use question::{Question, question_is_asked};
use skew_bounds::{Tight, times_of};
use std::alloc::{AllocError, Global};
use witness_replay::truth_by;

// The timing of numbers of the nodes, if the formula has the value in it.
fn replayed(
    alloc: Global,
    question: &Question,
    value: bool,
    numbers: &[i128],
) -> Result<Option<Times>, AllocError>
    requires some { length question.now.log.rows < length numbers.now }
    requires admissible { Admissible question.now.log (times_in (length question.now.log.rows) numbers.now) }
    ensures gives { IfOk result (λ o. IfSome o (GivesValue question.now.log question.now.form value)) }
{
    // For the proof: the call says what a log holds to.
    log_is_valid(question.log());
    let times = times_of(alloc, question.log().rows().len(), numbers)?;
    if truth_by(alloc, question, times.as_slice())? == value {
        Ok(Some(times))
    } else {
        Ok(None)
    }
}

/// What is found in instances that a value asks for, and whether more of them may find more.
#[derive(Drop)]
struct Turn {
    found: Option<Searched>,
    goes_on: bool,
}

// What is found in the instances that a value asks for, with so much of the long ones: more may find more where some
// were left out and the budget wasn't spent.
fn search_within(
    alloc: Global,
    question: Question,
    tight: &Tight,
    value: bool,
    budget: Budget,
    most: Most,
) -> Result<Turn, AllocError>
    requires tight { IsTight question.log tight.now }
    ensures found { IfOk result (λ turn. IfSome turn.found (IsSearched question.entry.log question.entry.form value budget)) }
{
    bounds_are_admissible();
    // For the proof: the calls say what a log and a formula hold to.
    log_is_valid(question.log());
    let _ = question.formula().tree();
    question_is_asked(&question);
    let (log, nodes) = (question.log(), question.nodes());
    let Part { problem, is_cut } = encode_asked(alloc, question, value, tight, most)?;
    let assumed = decided_by(alloc, &problem.atoms, tight)?;
    match search_by(alloc, problem, &assumed, budget.get())? {
        Some(
            Found::Model {
                values: _,
                potentials,
            },
        ) => {
            let again = Question::new(alloc, log, nodes)?;
            match replayed(alloc, &again, value, potentials.as_slice())? {
                Some(times) => Ok(Turn {
                    found: Some(Searched::Timing(times)),
                    goes_on: false,
                }),
                None => Ok(Turn {
                    found: None,
                    goes_on: is_cut,
                }),
            }
        }
        Some(Found::Refuted(lines)) => Ok(Turn {
            found: Some(Searched::Refuted(lines)),
            goes_on: false,
        }),
        Some(Found::Spent(_)) => Ok(Turn {
            found: None,
            goes_on: false,
        }),
        None => Ok(Turn {
            found: None,
            goes_on: is_cut,
        }),
    }
}

// How many literals the clauses of changes may have in all before the last turn.
const LITERALS: usize = 1 << 22;

// So many witnesses, and not all literals.
fn few(witnesses: u32) -> Most {
    Most {
        witnesses,
        literals: LITERALS,
    }
}

// Turn by turn more of the long clauses: most values are decided by few, and where one isn't, the turns before cost little
// beside the next.
fn turns() -> [Most; 5] {
    [few(32), few(128), few(512), few(u32::MAX), Most::ALL]
}

/// What is found of a value in the instances that it asks for: lines that refute it, or a timing in which the formula has it,
/// which is replayed. None where the search finds another timing, spends the budget, or comes to nothing. An error is want of
/// memory.
pub fn search_part(
    alloc: Global,
    question: Question,
    tight: &Tight,
    value: bool,
    budget: Budget,
) -> Result<Option<Searched>, AllocError>
    requires tight { IsTight question.log tight.now }
    ensures found { IfOk result (λ o. IfSome o (IsSearched question.entry.log question.entry.form value budget)) }
{
    question_is_asked(&question);
    let (log, nodes) = (question.log(), question.nodes());
    for most in turns() {
        let again = Question::new(alloc, log, nodes)?;
        let Turn { found, goes_on } = search_within(alloc, again, tight, value, budget, most)?;
        if found.is_some() || !goes_on {
            return Ok(found);
        }
    }
    Ok(None)
}
