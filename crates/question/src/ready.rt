//! Whether a question can be searched: its problem is small enough.

ghost use Rattle.std.specs.Prelude.{MatchOption, IfErr, IfOk, OnOk};
ghost use Rattle.skew_bounds.specs.Tight.{IsInconsistent, IsTight};
ghost use Rattle.question.specs.Faults.{IsFault, IsJudged};
ghost use Rattle.question.specs.Settled.{IsSettled};

use crate::{
    MAX_SIZE, Question, QuestionFault, Settled, question_is_asked, size_of, sizes_are_unique,
};
use mt_model::{conflict_excludes_timings, log_is_valid};
use skew_bounds::Tight;
use std::alloc::Global;

// How far apart the events of a log are, and None where no timing is admissible.
fn differences<'a>(question: &Question, settled: &'a Settled) -> Option<&'a Tight>
    requires { IsSettled question.now.log settled.now }
    ensures { MatchOption result (IsInconsistent question.now.log) (λ t. IsTight question.now.log t.now) }
{
    conflict_excludes_timings();
    match settled {
        Settled::Timing { tight, .. } => Some(tight),
        Settled::Conflict(_) => None,
    }
}

// That the problem of a question is small enough.
fn small_enough(question: &Question, tight: Option<&Tight>) -> Result<(), QuestionFault>
    requires tight { MatchOption tight (IsInconsistent question.now.log) (λ t. IsTight question.now.log t.now) }
    ensures judged { OnOk result (IsJudged question.now.log question.now.form) }
    ensures fault { IfErr result (IsFault question.now.log question.now.form) }
{
    sizes_are_unique();
    question_is_asked(question);
    log_is_valid(question.log());
    let size = size_of(question.log(), question.nodes().arena(), tight);
    if size <= MAX_SIZE {
        Ok(())
    } else {
        Err(QuestionFault::TooLarge { size })
    }
}

impl<'a> Question<'a> {
    /// Whether the log's bounds can be met, as `settle` says, where the problem is small enough to be searched. A fault is
    /// `TooLarge` or want of memory.
    pub fn ready(&self, alloc: Global) -> Result<Settled, QuestionFault>
        ensures settled { IfOk result (IsSettled self.now.log) }
        ensures judged { OnOk result (IsJudged self.now.log self.now.form) }
        ensures fault { IfErr result (IsFault self.now.log self.now.form) }
    {
        let settled = self.settle(alloc)?;
        small_enough(self, differences(self, &settled))?;
        Ok(settled)
    }
}
