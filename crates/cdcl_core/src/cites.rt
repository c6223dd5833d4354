//! The hints that cite clauses.

ghost use Rattle.std.specs.Prelude.{◌≡◌, ◌^◌, ◌<◌, [], ◌∷◌, ◌++◌, IsTrue, length, map, set, All, OnOk, OnErr};
ghost use Rattle.proof_log.specs.declared.line.Hint.TheVariants as hint;
ghost use Rattle.proof_log.specs.Spelled.{IsNumber};
ghost use Rattle.cdcl_core.specs.Recording.{IsRuleInRange, cite_at, is_open as open_hint};

use axiom_rules::{Rule, RuleList};
use clause_db::ClauseRef;
use proof_log::Hint;
use std::alloc::{AllocError, Global};
use std::marker::Model;

/// The hint by which a line cites each clause, which contracts see as a list: those that name the rules of a
/// problem, and then those that name the lines of later clauses.
#[derive(Drop)]
pub struct Cites {
    rules: RuleList,
    // The number of the line of each later clause.
    lines: Vec<u32>,
}

impl Model for Cites {
    ghost use Rattle.std.specs.Prelude.{List, ◌++◌, map};
    ghost use Rattle.proof_log.specs.declared.line.Hint.{Hint};
    ghost use Rattle.proof_log.specs.declared.line.Hint.TheVariants as hint;

    ghost Value = { List Hint };

    ghost view = { λ c. map hint.Rule c.rules ++ map hint.Line c.lines.items };
}

// The number and the arguments of a rule are in range by their types.
fn rule_fits(number: u8, args: &[u32])
    ensures number { number < 2 ^ 8 }
    ensures arguments { All IsNumber args.now }
{}

// The number and the arguments of each of these rules are in range by their types.
fn rules_fit(rules: &[Rule])
    ensures in_range { All IsRuleInRange rules.now }
{
    for rule in rules {
        rule_fits(rule.number, &rule.args);
    }
}

impl Cites {
    /// Clauses of which each is cited by its rule.
    pub fn new(alloc: Global, rules: RuleList) -> Cites
        ensures cites { result ≡ map hint.Rule rules }
        ensures in_range { All IsRuleInRange rules }
    {
        rules_fit(rules.as_slice());
        Cites {
            rules,
            lines: Vec::new(alloc),
        }
    }

    /// Adds a clause that is cited by its line.
    pub fn push(&mut self, line: u32) -> Result<(), AllocError>
        ensures ok { OnOk result (self.new ≡ self.old ++ hint.Line line ∷ []) }
        ensures err { OnErr result (self.new ≡ self.old) }
    {
        self.lines.push(line)?;
        Ok(())
    }

    /// Whether a clause is that of an assumed order whose line isn't written yet.
    pub fn is_open(&self, clause: ClauseRef) -> bool
        requires within { clause < length self.now }
        ensures open { result ≡ open_hint (cite_at self.now clause) }
    {
        match self.hint(clause) {
            Hint::Line(line) => line == 0,
            Hint::Rule(_) => false,
        }
    }

    /// Has such a clause cited by its line.
    pub fn settle(&mut self, clause: ClauseRef, line: u32)
        requires within { clause < length self.old }
        requires open { IsTrue (open_hint (cite_at self.old clause)) }
        ensures settled { self.new ≡ set self.old clause (hint.Line line) }
    {
        let place = clause.get() as usize;
        let many = self.rules.as_slice().len();
        if place >= many {
            self.lines[place - many] = line;
        }
    }

    /// The hint that cites a clause.
    pub fn hint(&self, clause: ClauseRef) -> Hint
        requires within { clause < length self.now }
        ensures hint { result ≡ cite_at self.now clause }
    {
        let place = clause.get() as usize;
        let rules = self.rules.as_slice();
        if place < rules.len() {
            Hint::Rule(rules[place])
        } else {
            Hint::Line(self.lines[place - rules.len()])
        }
    }
}
