//! Searches for what is sought, and whether lines refute it.

ghost use Rattle.std.specs.Prelude.{◌≡◌, ◌↔◌, ◌<◌, ◌^◌, length, IfOk, IsTrue, None};
ghost use Rattle.mt_model.specs.State.{unknown_host};
ghost use Rattle.formula_arena.specs.Nodes.{nodes_of};
ghost use Rattle.question.specs.Size.{IsSmall};
ghost use Rattle.proof_log.specs.Derivations.{Refutes};
ghost use Rattle.proof_check.specs.Answering.{OfSought};
ghost use Rattle.best_answer.specs.Aims.{AreRefuting, IsFound};

use crate::Aim;
use cdcl_core::{Budget, Searched, search_log};
use mt_model::Log;
use proof_check::{Check, Checker};
use proof_log::Line;
use question::Question;
use std::alloc::{AllocError, Global};

// Whether a checker's answer is that lines refute.
fn check_refutes(checker: &mut Checker, lines: &[Line]) -> Result<bool, AllocError>
    requires few { length lines.now < 2 ^ 32 }
    ensures refutes { IfOk result (λ b. OfSought checker.old (λ log f v. IsTrue b ↔ Refutes log f v lines.now)) }
{
    match checker.check(lines)? {
        Check::Refutes => Ok(true),
        Check::Derives => Ok(false),
        Check::Wrong(_) => Ok(false),
    }
}

impl<'a> Aim<'a> {
    /// What a search for the value finds in the timings of a log, which is that of the aim or one made of it.
    pub fn search_in(&self, alloc: Global, log: &Log) -> Result<Searched, AllocError>
        requires hosts { unknown_host log.now self.now.nodes.now ≡ None }
        requires small { IsSmall log.now (nodes_of self.now.nodes.now) }
        ensures found { IfOk result (IsFound self.now log.now) }
    {
        let question = Question::new(alloc, log, self.nodes)?;
        search_log(alloc, question, self.value, Budget::new(self.budget))
    }

    /// Whether lines refute the value in the timings of a log, as the checker of derivations says.
    pub fn is_refuted_in(
        &self,
        alloc: Global,
        log: &Log,
        lines: &[Line],
    ) -> Result<bool, AllocError>
        requires few { length lines.now < 2 ^ 32 }
        ensures refutes { IfOk result (λ b. IsTrue b ↔ AreRefuting self.now log.now lines.now) }
    {
        let mut checker = Checker::by(alloc, log, self.nodes, self.value)?;
        check_refutes(&mut checker, lines)
    }
}
