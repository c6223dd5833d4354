//! A formula that is asked of a log.

ghost use Rattle.std.specs.Prelude.{◌≡◌, IfOk, None};
ghost use Rattle.mt_model.specs.Form.{form_of};
ghost use Rattle.mt_model.specs.State.{unknown_host};
ghost use Rattle.skew_bounds.specs.System.{IsSystemOf};
ghost use Rattle.question.specs.Asked.{HasFewNodes};
ghost use Rattle.question.specs.Settled.{IsSettled};

use crate::{Nodes, Settled};
use mt_model::{Formula, Log};
use skew_bounds::{BoundSystem, Consistency, settle_by, system_of, tight_by};
use std::alloc::{AllocError, Global};
use std::marker::Model;

/// A formula, by its nodes, that is asked of a log, by its bounds. The formula's hosts are in the log. Contracts see the log
/// and the formula.
#[derive(Drop)]
pub struct Question<'a> {
    log: &'a Log,
    nodes: &'a Nodes<'a>,
    system: BoundSystem,
}

impl<'a> Model for Question<'a> {
    ghost use Rattle.std.specs.Coded.{codes};
    ghost use Rattle.formula_arena.specs.CodedForms.{coded_form};
    ghost use Rattle.question.specs.Asked.{Asked, IsPut};

    ghost Value = { Asked };

    ghost coded = { Prim.hlevel (codes, coded_form (Prim.hlevel codes)) };

    ghost view = { λ q. record { log = q.log.now; form = q.nodes.now } };

    ghost invariant = { λ q. IsPut q.log.now q.nodes.now q.system };
}

impl<'a> Question<'a> {
    /// The question of these nodes' formula of a log that has its hosts. An error is want of memory.
    pub fn new(
        alloc: Global,
        log: &'a Log,
        nodes: &'a Nodes<'a>,
    ) -> Result<Question<'a>, AllocError>
        requires hosts { unknown_host log.now nodes.now ≡ None }
        ensures log { IfOk result (λ q. q.log ≡ log.now) }
        ensures form { IfOk result (λ q. q.form ≡ nodes.now) }
    {
        // For the proof: the call says that nodes are few.
        let _ = nodes.arena();
        let system = system_of(alloc, log)?;
        Ok(Question { log, nodes, system })
    }

    /// The log.
    pub fn log(&self) -> &'a Log
        ensures log { result.now ≡ self.now.log }
    {
        self.log
    }

    /// The formula.
    pub fn formula(&self) -> &'a Formula
        ensures form { form_of result.now ≡ self.now.form }
    {
        self.nodes.formula()
    }

    /// The nodes of the formula.
    pub fn nodes(&self) -> &'a Nodes<'a>
        ensures form { result.now ≡ self.now.form }
    {
        self.nodes
    }

    /// The bounds of the log, with their edges.
    pub fn system(&self) -> &BoundSystem
        ensures system { IsSystemOf self.now.log result.now }
    {
        &self.system
    }

    /// The bounds of the log, with their edges, and nothing else.
    pub fn into_system(self) -> BoundSystem
        ensures system { IsSystemOf self.entry.log result }
    {
        let Question { system, .. } = self;
        system
    }

    /// Whether the log's bounds can be met. An error is want of memory.
    pub fn settle(&self, alloc: Global) -> Result<Settled, AllocError>
        ensures settled { IfOk result (IsSettled self.now.log) }
    {
        match settle_by(alloc, self.log, &self.system)? {
            Consistency::Conflict(steps) => Ok(Settled::Conflict(steps)),
            Consistency::Timing(times) => {
                let tight = tight_by(alloc, self.log, &self.system, times.as_slice())?;
                Ok(Settled::Timing { times, tight })
            }
        }
    }
}

/// The formula's hosts are in the log, and it has few enough nodes.
pub fn question_is_asked(question: &Question)
    ensures few { HasFewNodes question.now.log question.now.form }
{
    let _ = &question.log;
}
