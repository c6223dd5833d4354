//! The search for a timing in which a formula has a value.

ghost use Rattle.std.specs.Prelude.{◌≡◌, Bool, length, IfOk};
ghost use Rattle.mt_model.specs.Form.{Form};
ghost use Rattle.skew_bounds.specs.Consistency.{IsConflict};
ghost use Rattle.skew_bounds.specs.Tight.{IsTight};
ghost use Rattle.formula_arena.specs.Nodes.{nodes_of};
ghost use Rattle.question.specs.Size.{IsSmall};
ghost use Rattle.cdcl_core.specs.Values.{IsFoundFor, IsSearched, RefuteEachValue};

use crate::decided::decided_by;
use crate::main_loop::search_by;
use crate::part::search_part;
use crate::{Budget, Found, search};
use mt_model::{Log, Steps, Times, bounds_are_admissible, log_is_valid};
use mtl_encode::encode_by;
use proof_log::{Line, Lines};
use question::{Question, Settled, question_is_asked};
use skew_bounds::{Tight, times_of};
use std::alloc::{AllocError, Global};

/// What a search for a value found.
#[derive(Drop)]
pub enum Searched {
    /// A timing that the log admits, in which the formula has the value.
    Timing(Times),
    /// Lines that refute that the formula has the value.
    Refuted(Lines),
    /// Lines that derive, with as many clauses learnt as the budget.
    Spent(Lines),
}

// What is found in the problem of all rules that are kept: where the search that assumes the orders that the bounds decide
// comes to nothing, the problem is searched as it is.
fn found_by(
    alloc: Global,
    question: Question,
    tight: &Tight,
    value: bool,
    budget: Budget,
) -> Result<Found, AllocError>
    requires small { IsSmall question.log (nodes_of question.form) }
    requires tight { IsTight question.log tight.now }
    ensures found { IfOk result (IsFoundFor question.entry.log question.entry.form value budget) }
{
    bounds_are_admissible();
    // For the proof: the calls say what a log and a formula hold to.
    log_is_valid(question.log());
    let _ = question.formula().tree();
    question_is_asked(&question);
    let (log, nodes) = (question.log(), question.nodes());
    let problem = encode_by(alloc, question, value, tight)?;
    let assumed = decided_by(alloc, &problem.atoms, tight)?;
    match search_by(alloc, problem, &assumed, budget.get())? {
        Some(found) => Ok(found),
        None => {
            let again = Question::new(alloc, log, nodes)?;
            let problem = encode_by(alloc, again, value, tight)?;
            search(alloc, problem, budget.get())
        }
    }
}

// What a search of the problem of all rules that are kept finds.
fn search_whole(
    alloc: Global,
    question: Question,
    tight: &Tight,
    value: bool,
    budget: Budget,
) -> Result<Searched, AllocError>
    requires small { IsSmall question.log (nodes_of question.form) }
    requires tight { IsTight question.log tight.now }
    ensures found { IfOk result (IsSearched question.entry.log question.entry.form value budget) }
{
    // For the proof: the call says what a log holds to.
    log_is_valid(question.log());
    let rows = question.log().rows().len();
    let found = found_by(alloc, question, tight, value, budget)?;
    match found {
        Found::Model {
            values: _,
            potentials,
        } => Ok(Searched::Timing(times_of(alloc, rows, potentials.as_slice())?)),
        Found::Refuted(lines) => Ok(Searched::Refuted(lines)),
        Found::Spent(lines) => Ok(Searched::Spent(lines)),
    }
}

/// A timing that the log admits and in which the formula has a value, lines that refute that it has it, or lines that spend
/// the budget. Some timing is admissible, and the least and greatest differences of the log's events are known. An error is
/// want of memory.
///
/// The instances of rules that the value asks for are searched first, and all that are kept where that comes to nothing.
pub fn search_value(
    alloc: Global,
    question: Question,
    tight: &Tight,
    value: bool,
    budget: Budget,
) -> Result<Searched, AllocError>
    requires small { IsSmall question.log (nodes_of question.form) }
    requires tight { IsTight question.log tight.now }
    ensures found { IfOk result (IsSearched question.entry.log question.entry.form value budget) }
{
    question_is_asked(&question);
    let (log, nodes) = (question.log(), question.nodes());
    match search_part(alloc, question, tight, value, budget)? {
        Some(searched) => Ok(searched),
        None => {
            let again = Question::new(alloc, log, nodes)?;
            search_whole(alloc, again, tight, value, budget)
        }
    }
}

/// The same where nothing is known of the log but that its problem is small enough where it admits a timing.
pub fn search_log(
    alloc: Global,
    question: Question,
    value: bool,
    budget: Budget,
) -> Result<Searched, AllocError>
    requires small { IsSmall question.log (nodes_of question.form) }
    ensures found { IfOk result (IsSearched question.entry.log question.entry.form value budget) }
{
    match question.settle(alloc)? {
        Settled::Conflict(steps) => refuted(alloc, question.log(), steps, budget),
        Settled::Timing { times: _, tight } => search_value(alloc, question, &tight, value, budget),
    }
}

// A search for any value of any formula, where bounds of a log are in conflict.
fn refuted(alloc: Global, log: &Log, steps: Steps, budget: Budget) -> Result<Searched, AllocError>
    requires conflict { IsConflict log.now steps }
    ensures found { IfOk result (λ searched. (f : Form) (v : Bool) → IsSearched log.now f v budget searched) }
{
    // For the proof: the call says how great a budget is at most.
    let _ = budget.get();
    let lines = refuted_by_conflict(alloc, log, steps)?;
    Ok(Searched::Refuted(lines))
}

/// The one line that refutes every value of every formula, where bounds of a log are in conflict. An error is want of
/// memory.
pub fn refuted_by_conflict(alloc: Global, log: &Log, steps: Steps) -> Result<Lines, AllocError>
    requires conflict { IsConflict log.now steps }
    ensures refuted { IfOk result (RefuteEachValue log.now) }
    ensures one { IfOk result (λ lines. length lines ≡ 1) }
{
    log_is_valid(log);
    let mut lines = Lines::new(alloc);
    lines.push(Line::Cycle(steps))?;
    Ok(lines)
}
