//! The clauses that a line may know.

ghost use Rattle.std.specs.Prelude.{◌≡◌, ◌≤◌, [], ◌∷◌, ◌++◌, length, IfOk, OnOk};
ghost use Rattle.std.specs.List.{filter_map};
ghost use Rattle.std.specs.Result.{result_ok};
ghost use Rattle.axiom_rules.specs.Clauses.{clause_of as clause_of_rule};
ghost use Rattle.proof_log.specs.Freshness.{clauses_of, known_before, learnt, named_rules, rule_of_hint, rules_of_line};

use axiom_rules::{Literal, Rule, RuleFault, Rules};
use proof_log::{Hint, Line, Lits};
use smallvec::SmallVec;
use std::alloc::{AllocError, Global};

// The same literals.
fn copied(alloc: Global, literals: &[Literal]) -> Result<Lits, AllocError>
    ensures { IfOk result (λ copy. copy ≡ literals.now) }
{
    Ok(Lits::from_vec(literals.to_vec(alloc)?))
}

// The clause of a rule, where it has one.
fn clause_of(alloc: Global, sought: &Rules, rule: &Rule) -> Result<Option<Lits>, AllocError>
    ensures { IfOk result (λ o. o ≡ result_ok (clause_of_rule sought.now rule.now)) }
{
    let mut clause: SmallVec<Literal, 8, Global> = SmallVec::new(alloc);
    match sought.clause_of(rule, &mut clause) {
        Ok(()) => Ok(Some(copied(alloc, clause.as_slice())?)),
        Err(RuleFault::Memory) => Err(AllocError),
        Err(_) => Ok(None),
    }
}

// Adds the clause of a rule that has one.
fn add_clause(
    alloc: Global,
    sought: &Rules,
    rule: &Rule,
    clauses: &mut Vec<Lits>,
) -> Result<(), AllocError>
    ensures { OnOk result (clauses.new.items ≡ clauses.old.items ++ clauses_of sought.now (rule.now ∷ [])) }
{
    if let Some(clause) = clause_of(alloc, sought, rule)? {
        clauses.push(clause)?;
    }
    Ok(())
}

// Adds the clauses of those of the rules that have one.
fn add_clauses(
    alloc: Global,
    sought: &Rules,
    rules: &[Rule],
    clauses: &mut Vec<Lits>,
) -> Result<(), AllocError>
    ensures { OnOk result (clauses.new.items ≡ clauses.old.items ++ clauses_of sought.now rules.now) }
{
    for rule in rules {
        add_clause(alloc, sought, rule, clauses)?;
    }
    Ok(())
}

// Adds the rule that a hint names, if it names one.
fn add_rule(hint: &Hint, rules: &mut Vec<Rule>) -> Result<(), AllocError>
    ensures { OnOk result (rules.new.items ≡ rules.old.items ++ filter_map rule_of_hint (hint.now ∷ [])) }
{
    if let Hint::Rule(rule) = hint {
        rules.push(*rule)?;
    }
    Ok(())
}

// Adds the rules that hints name.
fn add_rules(hints: &[Hint], rules: &mut Vec<Rule>) -> Result<(), AllocError>
    ensures { OnOk result (rules.new.items ≡ rules.old.items ++ filter_map rule_of_hint hints.now) }
{
    for hint in hints {
        add_rule(hint, rules)?;
    }
    Ok(())
}

// Adds the rules that the hints of a line name.
fn add_named(line: &Line, rules: &mut Vec<Rule>) -> Result<(), AllocError>
    ensures { OnOk result (rules.new.items ≡ rules.old.items ++ rules_of_line line.now) }
{
    match line {
        Line::Cycle(_) => Ok(()),
        Line::Learn { hints, .. } => add_rules(hints.as_slice(), rules),
    }
}

// The rules that hints of the lines name.
fn named(alloc: Global, lines: &[Line]) -> Result<Vec<Rule>, AllocError>
    ensures { IfOk result (λ rules. rules.items ≡ named_rules lines.now) }
{
    let mut rules = Vec::new(alloc);
    for line in lines {
        add_named(line, &mut rules)?;
    }
    Ok(rules)
}

// Adds the clause of a Learn line.
fn add_learnt_of(alloc: Global, line: &Line, clauses: &mut Vec<Lits>) -> Result<(), AllocError>
    ensures { OnOk result (clauses.new.items ≡ clauses.old.items ++ learnt (line.now ∷ [])) }
{
    match line {
        Line::Cycle(_) => Ok(()),
        Line::Learn { lits, .. } => {
            clauses.push(copied(alloc, lits.as_slice())?)?;
            Ok(())
        }
    }
}

// Adds the clauses of the Learn lines among these.
fn add_learnt(alloc: Global, lines: &[Line], clauses: &mut Vec<Lits>) -> Result<(), AllocError>
    ensures { OnOk result (clauses.new.items ≡ clauses.old.items ++ learnt lines.now) }
{
    for line in lines {
        add_learnt_of(alloc, line, clauses)?;
    }
    Ok(())
}

/// The clauses that are known before a line, numbered from 1, besides what propagation gives.
pub fn known(
    alloc: Global,
    sought: &Rules,
    rules: &[Rule],
    lines: &[Line],
    place: usize,
) -> Result<Vec<Lits>, AllocError>
    requires first { 1 ≤ place }
    requires within { place ≤ length lines.now }
    ensures { IfOk result (λ clauses. clauses.items ≡ known_before sought.now rules.now lines.now place) }
{
    let named = named(alloc, &lines[..place])?;
    let mut clauses = Vec::new(alloc);
    add_clauses(alloc, sought, rules, &mut clauses)?;
    add_clauses(alloc, sought, &named, &mut clauses)?;
    add_learnt(alloc, &lines[..place - 1], &mut clauses)?;
    Ok(clauses)
}
