//! The search for a value of a formula.

ghost use Rattle.std.specs.Prelude.{◌≤◌};
ghost use Rattle.formula_arena.specs.Nodes.{nodes_of};
ghost use Rattle.question.specs.Size.{IsSmall};
ghost use Rattle.skew_bounds.specs.Tight.{IsTight};

use crate::atom_order::{AtomOrder, ordered};
use cdcl_core::{Found, search};
use mt_model::{Formula, Log, bounds_are_admissible, log_is_valid};
use mtl_encode::encode_by;
use question::{Nodes, Question, Settled};
use skew_bounds::Tight;
use std::alloc::{AllocError, Global};

/// What is searched for: a value, with so many conflicts at most, over the atoms in this order.
#[derive(Clone, Copy)]
pub struct Asked {
    pub value: bool,
    pub budget: u32,
    pub order: AtomOrder,
}

// What a search finds of a question.
fn search_question(
    alloc: Global,
    question: Question,
    tight: &Tight,
    asked: Asked,
) -> Result<Found, AllocError>
    requires some { 1 ≤ asked.budget }
    requires most { asked.budget ≤ 1000000 }
    requires tight { IsTight question.log tight.now }
    requires small { IsSmall question.log (nodes_of question.form) }
{
    bounds_are_admissible();
    // For the proof: the calls say what a log and a formula hold to.
    log_is_valid(question.log());
    let _ = question.formula().tree();
    let encoded = encode_by(alloc, question, asked.value, tight)?;
    let problem = ordered(alloc, encoded, asked.order)?;
    search(alloc, problem, asked.budget)
}

/// What a search finds, where the log admits a timing, the problem isn't too large and there is memory.
pub fn searched(alloc: Global, log: &Log, f: &Formula, asked: Asked) -> Option<Found>
    requires some { 1 ≤ asked.budget }
    requires most { asked.budget ≤ 1000000 }
{
    let nodes = Nodes::asked(alloc, log, f).ok()?;
    let question = Question::new(alloc, log, &nodes).ok()?;
    match question.ready(alloc) {
        Ok(Settled::Timing { times: _, tight }) => {
            search_question(alloc, question, &tight, asked).ok()
        }
        _ => None,
    }
}
