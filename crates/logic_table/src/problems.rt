//! The section on problems.

ghost use Rattle.skew_bounds.specs.Tight.{IsConsistent, IsTight};

use crate::case::LogicCase;
use crate::edges::numbers_of;
use crate::writing::{push_atom, push_items, push_sign};
use axiom_rules::{AtomTable, Rule};
use clause_db::{ClauseRef, Db, Lit, Var};
use mt_model::{Formula, Log};
use mtl_encode::{Most, Problem, encode, encode_asked};
use neg_cycle::Edge;
use question::{MAX_SIZE, Nodes, Question, size_of, sizes_are_unique};
use skew_bounds::{Consistency, Tight, TightFault, settle, tight};
use std::alloc::Global;
use table_case::{Parsed, push_line, push_marked, push_shown};

fn push_atoms(alloc: Global, atoms: &AtomTable, out: &mut Vec<u8>) -> Option<()> {
    for v in 0..atoms.len() {
        out.extend_from_slice(b"atom ").ok()?;
        push_atom(alloc, atoms.atom(Var::new(v)), out)?;
    }
    Some(())
}

fn push_edges(alloc: Global, edges: &[Edge], out: &mut Vec<u8>) -> Option<()> {
    for edge in edges {
        push_items(alloc, "edge", &numbers_of(*edge), out)?;
    }
    Some(())
}

fn push_rule(alloc: Global, rule: &Rule, out: &mut Vec<u8>) -> Option<()> {
    let [a, b, c, d] = rule.args;
    push_items(alloc, "rule", &[u32::from(rule.number), a, b, c, d], out)
}

// Adds a line for each literal, its variable with the sign of its sense.
fn push_clause(alloc: Global, lits: &[Lit], out: &mut Vec<u8>) -> Option<()> {
    for lit in lits {
        push_sign(lit.positive(), out)?;
        push_shown(alloc, out, lit.var().get())?;
    }
    Some(())
}

fn push_clauses(alloc: Global, rules: &[Rule], db: &Db, out: &mut Vec<u8>) -> Option<()> {
    for n in 0..db.len() {
        push_rule(alloc, rules.get(n as usize)?, out)?;
        push_clause(alloc, db.lits(ClauseRef::new(n)), out)?;
    }
    Some(())
}

// The problem of a log, the nodes of a formula and a value, if it isn't too large.
fn encoded_by(alloc: Global, parsed: &Parsed, value: bool, tight: &Tight) -> Option<Problem>
    requires consistent { IsConsistent parsed.now.log }
    requires tight { IsTight parsed.now.log tight.now }
{
    sizes_are_unique();
    let Parsed { log, arena, root } = parsed;
    if size_of(log, arena, Some(tight)) <= MAX_SIZE {
        encode(alloc, log, arena, *root, value).ok()
    } else {
        None
    }
}

// The problem of a log, the nodes of a formula and a value, if the log admits some timing and the problem isn't too
// large.
fn encoded(alloc: Global, parsed: &Parsed, value: bool) -> Option<Problem> {
    match tight(alloc, &parsed.log) {
        Ok(tight) => encoded_by(alloc, parsed, value, &tight),
        Err(_) => None,
    }
}

/// The problem of a case, if the log admits some timing and the problem isn't too large.
pub fn problem_of(alloc: Global, case: &LogicCase) -> Option<Problem> {
    encoded(alloc, &case.parsed(alloc)?, case.value())
}

// Adds the parts of a problem.
fn push_problem(alloc: Global, problem: &Problem, out: &mut Vec<u8>) -> Option<()> {
    push_items(alloc, "nodes", &[problem.nodes], out)?;
    push_edges(alloc, problem.edges.as_slice(), out)?;
    push_clauses(alloc, problem.rules.as_slice(), &problem.db, out)?;
    push_atoms(alloc, &problem.atoms, out)
}

// A timing that the log of a case admits, or bounds of it in conflict.
fn settled(alloc: Global, case: &LogicCase) -> Option<Consistency> {
    let log = case.log(alloc)?;
    settle(alloc, &log).ok()
}

// Whether the log of a case admits some timing.
fn is_consistent(alloc: Global, case: &LogicCase) -> Option<bool> {
    match settled(alloc, case)? {
        Consistency::Timing(_) => Some(true),
        Consistency::Conflict(_) => Some(false),
    }
}

// Adds the parts of the problem of a case.
fn push_problem_of(alloc: Global, case: &LogicCase, out: &mut Vec<u8>) -> Option<()> {
    if is_consistent(alloc, case)? {
        push_problem(alloc, &problem_of(alloc, case)?, out)
    } else {
        push_line(out, b"inconsistent")
    }
}

// The problem of the instances that a value sought of a question asks for, if its log admits some timing.
fn asked_by(alloc: Global, question: Question, value: bool) -> Option<Problem> {
    let tight = tight(alloc, question.log()).ok()?;
    let part = encode_asked(alloc, question, value, &tight, Most::ALL).ok()?;
    Some(part.problem)
}

// The same of a log and a formula.
fn asked_with(alloc: Global, log: &Log, f: &Formula, value: bool) -> Option<Problem> {
    let nodes = Nodes::asked(alloc, log, f).ok()?;
    let question = Question::new(alloc, log, &nodes).ok()?;
    asked_by(alloc, question, value)
}

// The same of a case.
fn asked_of(alloc: Global, case: &LogicCase) -> Option<Problem> {
    let log = case.log(alloc)?;
    let f = case.formula(alloc)?;
    asked_with(alloc, &log, &f, case.value())
}

// Adds the parts of that problem.
fn push_asked_of(alloc: Global, case: &LogicCase, out: &mut Vec<u8>) -> Option<()> {
    if is_consistent(alloc, case)? {
        push_problem(alloc, &asked_of(alloc, case)?, out)
    } else {
        push_line(out, b"inconsistent")
    }
}

// The size of the problem of a log and the nodes of a formula.
fn size(alloc: Global, parsed: &Parsed) -> Option<u128> {
    match tight(alloc, &parsed.log) {
        Ok(tight) => Some(size_of(&parsed.log, &parsed.arena, Some(&tight))),
        Err(TightFault::Cycle(_)) => Some(size_of(&parsed.log, &parsed.arena, None)),
        Err(TightFault::Memory) => None,
    }
}

// The size of the problem of a case.
fn size_of_case(alloc: Global, case: &LogicCase) -> Option<u128> {
    let parsed = case.parsed(alloc)?;
    size(alloc, &parsed)
}

// Adds the size of the problem of a case.
fn push_size(alloc: Global, case: &LogicCase, out: &mut Vec<u8>) -> Option<()> {
    let size = size_of_case(alloc, case)?;
    push_items(alloc, "size", &[size], out)
}

// Adds how many clauses and atoms a problem has.
fn push_counts(alloc: Global, problem: &Problem, out: &mut Vec<u8>) -> Option<()> {
    push_items(alloc, "clauses", &[problem.db.len()], out)?;
    push_items(alloc, "atoms", &[problem.atoms.len()], out)
}

// Adds how many the problem of a case has.
fn push_counts_of(alloc: Global, case: &LogicCase, out: &mut Vec<u8>) -> Option<()> {
    if is_consistent(alloc, case)? {
        push_counts(alloc, &problem_of(alloc, case)?, out)
    } else {
        push_line(out, b"inconsistent")
    }
}

/// Takes in a line of the section, and adds what it asks for.
pub fn take(
    alloc: Global,
    case: &mut LogicCase,
    mark: u8,
    text: &[u8],
    out: &mut Vec<u8>,
) -> Option<()> {
    match mark {
        b'?' => {
            push_marked(out, mark, text)?;
            push_problem_of(alloc, case, out)
        }
        b'@' => {
            push_marked(out, mark, text)?;
            push_asked_of(alloc, case, out)
        }
        b'*' => {
            push_marked(out, mark, text)?;
            push_size(alloc, case, out)
        }
        b'!' => {
            push_marked(out, mark, text)?;
            push_counts_of(alloc, case, out)
        }
        _ => case.take(alloc, mark, text, out),
    }
}
