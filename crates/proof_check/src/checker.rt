//! The checker of derivations, for one log, one formula and one value.

ghost use Rattle.std.specs.Prelude.{◌≡◌, ◌↔◌, ◌<◌, ◌≤◌, ◌^◌, ℕ, List, length, IfOk, OnOk, None, Err};
ghost use Rattle.mt_model.specs.Form.{form_of};
ghost use Rattle.mt_model.specs.Log.{IsLog};
ghost use Rattle.mt_model.specs.State.{unknown_host};
ghost use Rattle.mt_model.specs.Truth.{IsValue};
ghost use Rattle.formula_arena.specs.Nodes.{nodes_of};
ghost use Rattle.formula_arena.specs.declared.arena.TheConstants.{MAX_NODES};
ghost use Rattle.axiom_rules.specs.Sought.{sought_of};
ghost use Rattle.proof_log.specs.Derivations.{Derives, FirstWrong, Refutes};
ghost use Rattle.proof_log.specs.Freshness.{learn_lines};
ghost use Rattle.proof_log.specs.LinesOf.{IsTextOf};
ghost use Rattle.proof_check.specs.Answering.{OfSought, OfText, right_lines};

use crate::check::{Check, TextCheck};
use crate::laws::refuted_is_no_value;
use crate::taking::{check_lines, check_lines_of};
use axiom_rules::Rules;
use formula_arena::{Arena, ArenaFault};
use mt_model::{Formula, Log, log_is_valid};
use proof_log::Line;
use question::Nodes;
use std::alloc::{AllocError, Global};
use std::marker::Model;

/// Checks derivations for one log, one formula and one value that is sought of it. Contracts see what is sought, of which
/// it keeps copies.
#[derive(Drop)]
pub struct Checker {
    alloc: Global,
    rules: Rules,
}

impl Model for Checker {
    ghost use Rattle.std.specs.Coded.{codes};
    ghost use Rattle.formula_arena.specs.CodedForms.{coded_form};
    ghost use Rattle.axiom_rules.specs.Sought.{Sought};

    ghost Value = { Sought };

    ghost coded = { Prim.hlevel (codes, coded_form (Prim.hlevel codes)) };

    ghost view = { λ c. c.rules };
}

// The log of rules is valid.
fn rules_have_a_log(rules: &Rules)
    ensures { IsLog rules.now.log }
{
    log_is_valid(rules.log());
}

impl Checker {
    /// A checker for a log, a formula whose hosts are in the log, and a value that is sought of it. With more than 512 nodes
    /// the answer is `TooManyNodes` or want of memory; with no more it is never `TooManyNodes`.
    pub fn new(alloc: Global, log: &Log, f: &Formula, value: bool) -> Result<Checker, ArenaFault>
        requires hosts { unknown_host log.now (form_of f.now) ≡ None }
        ensures sought { IfOk result (λ c. c ≡ sought_of log.now (form_of f.now) value) }
        ensures enough { OnOk result (length (nodes_of (form_of f.now)) ≤ MAX_NODES) }
        ensures too_many { result ≡ Err ArenaFault.TooManyNodes → MAX_NODES < length (nodes_of (form_of f.now)) }
    {
        let mut arena = Arena::new(alloc);
        let root = arena.intern(f)?;
        let rules = Rules::new(alloc, log, &arena, root, value)?;
        Ok(Checker { alloc, rules })
    }

    /// The same where the nodes of the formula are known already. An error is want of memory.
    pub fn by(alloc: Global, log: &Log, nodes: &Nodes, value: bool) -> Result<Checker, AllocError>
        ensures sought { IfOk result (λ c. c ≡ sought_of log.now nodes.now value) }
    {
        let rules = Rules::new(alloc, log, nodes.arena(), nodes.root(), value)?;
        Ok(Checker { alloc, rules })
    }

    /// What lines are for the log, the formula and the value. Fewer than 2^32 lines are asked for, and each call judges its
    /// lines alone. A formula has no value that lines refute.
    ///
    /// The time is that of the clauses which the lines have and cite. An error is want of memory. The lines are checked by
    /// their text, as by `check_text`: a text of 2^31 bytes or more is told as want of memory.
    pub fn check(&mut self, lines: &[Line]) -> Result<Check, AllocError>
        requires few { length lines.now < 2 ^ 32 }
        ensures refutes { IfOk result (λ c. OfSought self.old (λ log f v. (c ≡ Check.Refutes) ↔ Refutes log f v lines.now)) }
        ensures derives { IfOk result (λ c. OfSought self.old (λ log f v. (c ≡ Check.Derives) ↔ Derives log f v lines.now)) }
        ensures wrong { IfOk result (λ c. OfSought self.old (λ log f v. (n : ℕ) → (c ≡ Check.Wrong n) ↔ FirstWrong log f v lines.now n)) }
        ensures excludes { IfOk result (λ c. OfSought self.old (λ log f v. c ≡ Check.Refutes → IsValue log f v → ⊥)) }
        ensures kept { self.new ≡ self.old }
    {
        refuted_is_no_value();
        rules_have_a_log(&self.rules);
        check_lines(self.alloc, &self.rules, lines)
    }

    /// The same for lines of which the bytes are the text. They are read one after another, and of each its clause alone is
    /// kept. The Learn lines are counted, those before the first wrong line where there is one. Of bytes that are the text of
    /// no lines nothing is said.
    pub fn check_text(&mut self, text: &[u8]) -> Result<TextCheck, AllocError>
        requires few { length text.now < 2 ^ 31 }
        ensures refutes { IfOk result (λ t. OfText self.old text.now (λ log f v lines. (t.check ≡ Check.Refutes) ↔ Refutes log f v lines)) }
        ensures derives { IfOk result (λ t. OfText self.old text.now (λ log f v lines. (t.check ≡ Check.Derives) ↔ Derives log f v lines)) }
        ensures wrong { IfOk result (λ t. OfText self.old text.now (λ log f v lines. (n : ℕ) → (t.check ≡ Check.Wrong n) ↔ FirstWrong log f v lines n)) }
        ensures excludes { IfOk result (λ t. OfText self.old text.now (λ log f v lines. t.check ≡ Check.Refutes → IsValue log f v → ⊥)) }
        ensures learn { IfOk result (λ t. (lines : List Line) → IsTextOf text.now lines → t.learn_lines ≡ learn_lines (right_lines t.check lines)) }
        ensures kept { self.new ≡ self.old }
    {
        refuted_is_no_value();
        rules_have_a_log(&self.rules);
        check_lines_of(self.alloc, &self.rules, text)
    }
}
