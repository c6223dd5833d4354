//! The section on searches.

ghost use Rattle.std.specs.Prelude.{◌≡◌, ◌≤◌, None};
ghost use Rattle.mt_model.specs.Form.{form_of};
ghost use Rattle.mt_model.specs.State.{unknown_host};

use crate::atom_order::AtomOrder;
use crate::case::LogicCase;
use crate::judging::judged;
use crate::outcome::{Outcome, push_outcome};
use crate::searching::{Asked, searched};
use mt_model::{Formula, Log};
use skew_bounds::{Consistency, settle};
use std::alloc::Global;
use table_case::push_marked;

/// The greatest budget.
const MAX_BUDGET: u32 = 1_000_000;

// What is said of a log and a formula over its hosts, where there is memory.
fn outcome_of_log(alloc: Global, log: &Log, f: &Formula, asked: Asked) -> Option<Outcome>
    requires hosts { unknown_host log.now (form_of f.now) ≡ None }
    requires some { 1 ≤ asked.budget }
    requires most { asked.budget ≤ 1000000 }
{
    match settle(alloc, log) {
        Ok(Consistency::Conflict(_)) => Some(Outcome::Inconsistent),
        Ok(Consistency::Timing(_)) => {
            let found = searched(alloc, log, f, asked)?;
            judged(alloc, log, f, asked, &found)
        }
        Err(_) => None,
    }
}

// What is said of a log and a formula, if it is over the log's hosts and the budget is in range.
fn outcome_over(alloc: Global, log: &Log, f: &Formula, asked: Asked) -> Option<Outcome> {
    match f.unknown_host(log) {
        None if 1 <= asked.budget && asked.budget <= MAX_BUDGET => {
            outcome_of_log(alloc, log, f, asked)
        }
        _ => None,
    }
}

// What is said of a case, if its texts are a log and a formula over its hosts, and its budget is in range.
fn outcome_of(alloc: Global, case: &LogicCase, order: AtomOrder) -> Option<Outcome> {
    let log = case.log(alloc)?;
    let f = case.formula(alloc)?;
    let asked = Asked {
        value: case.value(),
        budget: case.budget(),
        order,
    };
    outcome_over(alloc, &log, &f, asked)
}

/// Takes in a line of the section, and adds what it asks for.
pub fn take(
    alloc: Global,
    case: &mut LogicCase,
    mark: u8,
    text: &[u8],
    out: &mut Vec<u8>,
) -> Option<()> {
    let order = match mark {
        b'?' => AtomOrder::PartsFirst,
        b'!' => AtomOrder::PartsLast,
        _ => return case.take(alloc, mark, text, out),
    };
    push_marked(out, mark, text)?;
    let outcome = outcome_of(alloc, case, order)?;
    push_outcome(alloc, outcome, out)
}
