//! The section on rules.

use crate::case::LogicCase;
use crate::writing::{push_atom, push_sign};
use axiom_rules::{Literal, Rule, RuleFault, Rules};
use smallvec::SmallVec;
use std::alloc::Global;
use table_case::{Parsed, number_of, push_line, push_marked, text_of};

// Adds a line for each literal, with the sign of its sense.
fn push_literals(alloc: Global, literals: &[Literal], out: &mut Vec<u8>) -> Option<()> {
    for literal in literals {
        push_sign(literal.positive, out)?;
        push_atom(alloc, literal.atom, out)?;
    }
    Some(())
}

fn fault_text(fault: RuleFault) -> &'static str {
    match fault {
        RuleFault::NoRule => "no rule",
        RuleFault::Range => "range",
        RuleFault::Kind => "kind",
        RuleFault::Trivial => "trivial",
        RuleFault::Memory => "memory",
    }
}

/// The rules of a case, if its texts are a formula and a log.
pub fn rules_of(alloc: Global, case: &LogicCase) -> Option<Rules> {
    let Parsed { log, arena, root } = case.parsed(alloc)?;
    Rules::new(alloc, &log, &arena, root, case.value()).ok()
}

/// The rule of a line.
pub fn rule_of(text: &str) -> Option<Rule> {
    let mut words = text.split(' ');
    let number = number_of(words.next()?)?;
    let mut args = [0u32; 4];
    for (arg, word) in args.iter_mut().zip(words) {
        *arg = number_of(word)?;
    }
    Some(Rule { number, args })
}

// Adds the clause of a rule, or its fault.
fn push_clause(alloc: Global, rules: &Rules, rule: &Rule, out: &mut Vec<u8>) -> Option<()> {
    let mut clause: SmallVec<Literal, 8, Global> = SmallVec::new(alloc);
    match rules.clause_of(rule, &mut clause) {
        Ok(()) => push_literals(alloc, clause.as_slice(), out),
        Err(fault) => push_line(out, fault_text(fault).as_bytes()),
    }
}

/// Takes in a line of the section, and adds what it asks for.
pub fn take(
    alloc: Global,
    case: &mut LogicCase,
    mark: u8,
    text: &[u8],
    out: &mut Vec<u8>,
) -> Option<()> {
    if mark != b'?' {
        return case.take(alloc, mark, text, out);
    }
    push_marked(out, mark, text)?;
    let rule = rule_of(text_of(text)?)?;
    push_clause(alloc, &rules_of(alloc, case)?, &rule, out)
}
