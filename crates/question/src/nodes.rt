//! A formula with its nodes.

ghost use Rattle.std.specs.Prelude.{◌≡◌, ◌≤◌, ◌+◌, length, IfErr, IfOk, OnOk, None};
ghost use Rattle.mt_model.specs.Form.{form_of};
ghost use Rattle.mt_model.specs.State.{unknown_host};
ghost use Rattle.formula_arena.specs.Nodes.{nodes_of};
ghost use Rattle.formula_arena.specs.declared.arena.TheConstants.{MAX_NODES};
ghost use Rattle.question.specs.Faults.{IsFault};

use crate::QuestionFault;
use formula_arena::Arena;
use mt_model::{Formula, Log, NodeId};
use std::alloc::Global;
use std::marker::Model;

/// A formula with its nodes, of which there are at most 512. Contracts see the formula.
#[derive(Drop)]
pub struct Nodes<'a> {
    formula: &'a Formula,
    arena: Arena,
    root: NodeId,
}

impl<'a> Model for Nodes<'a> {
    ghost use Rattle.std.specs.Coded.{codes};
    ghost use Rattle.mt_model.specs.Form.{Form, form_of};
    ghost use Rattle.formula_arena.specs.CodedForms.{coded_form};
    ghost use Rattle.question.specs.Asked.{HasNodes};

    ghost Value = { Form };

    ghost coded = { coded_form (Prim.hlevel codes) };

    ghost view = { λ n. form_of n.formula.now };

    ghost invariant = { λ n. HasNodes (form_of n.formula.now) n.arena n.root };
}

impl<'a> Nodes<'a> {
    /// The nodes of a formula that is asked of a log. The first test that fails gives the fault: whether its hosts are in
    /// the log, and whether it has few enough nodes.
    pub fn asked(alloc: Global, log: &Log, formula: &'a Formula) -> Result<Nodes<'a>, QuestionFault>
        ensures formula { IfOk result (λ n. n ≡ form_of formula.now) }
        ensures hosts { OnOk result (unknown_host log.now (form_of formula.now) ≡ None) }
        ensures few { OnOk result (length (nodes_of (form_of formula.now)) ≤ MAX_NODES) }
        ensures fault { IfErr result (IsFault log.now (form_of formula.now)) }
    {
        if let Some(index) = formula.unknown_host(log) {
            return Err(QuestionFault::UnknownHost { index });
        }
        let mut arena = Arena::new(alloc);
        let root = arena.intern(formula)?;
        Ok(Nodes {
            formula,
            arena,
            root,
        })
    }

    /// The formula.
    pub fn formula(&self) -> &'a Formula
        ensures formula { form_of result.now ≡ self.now }
    {
        self.formula
    }

    /// The nodes.
    pub fn arena(&self) -> &Arena
        ensures nodes { result.now ≡ nodes_of self.now }
        ensures few { length (nodes_of self.now) ≤ MAX_NODES }
    {
        &self.arena
    }

    /// The node that stands for the whole, which is the last.
    pub fn root(&self) -> NodeId
        ensures last { result + 1 ≡ length (nodes_of self.now) }
    {
        self.root
    }
}
