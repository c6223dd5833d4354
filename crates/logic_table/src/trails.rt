//! The section on clauses, trails and what conflicts teach.

ghost use Rattle.std.specs.Prelude.{◌≡◌, ◌<◌, All, length};
ghost use Rattle.logic_table.specs.Runs.{IsHalted, IsReady};

use crate::clauses::{add_clause, lits_of, push_clauses, push_lits, push_places};
use crate::edges::{Numbered, numbered_of, two_of};
use crate::lessons::push_lesson;
use crate::runs::{Linked, Run, are_below};
use crate::writing::push_items;
use clause_db::{Db, Lit, Var};
use neg_cycle::Edge;
use propagate::{Links, Reached, Trail};
use std::alloc::Global;
use table_case::{push_line, push_marked, text_of};

/// So many variables and nodes, clauses, and edges of variables.
#[derive(Drop)]
pub struct Trails {
    vars: u32,
    nodes: u32,
    db: Db,
    edges: Vec<Linked>,
}

// The edges of a variable: its number, the edge of its positive literal, and that of its negative one.
fn linked_of(alloc: Global, text: &str) -> Option<Linked> {
    let Numbered { number, edges } = numbered_of(alloc, text)?;
    match edges.as_slice() {
        [yes, no] => Some(Linked {
            var: Var::new(number),
            yes: *yes,
            no: *no,
        }),
        _ => None,
    }
}

// The number of a variable, and those of its edges.
fn link_numbers(var: u32, yes: Edge, no: Edge) -> [i128; 7] {
    [
        i128::from(var),
        i128::from(yes.from),
        i128::from(yes.to),
        yes.bound,
        i128::from(no.from),
        i128::from(no.to),
        no.bound,
    ]
}

// Adds the edges of each variable that has some.
fn push_links(alloc: Global, links: &Links, vars: u32, out: &mut Vec<u8>) -> Option<()>
    requires { length links.now ≡ vars }
{
    for var in 0..vars {
        if let Some((yes, no)) = links.get(Var::new(var)) {
            push_items(alloc, "edges", &link_numbers(var, yes, no), out)?;
        }
    }
    Some(())
}

// Adds where propagation ended.
fn push_reached(alloc: Global, reached: &Reached, out: &mut Vec<u8>) -> Option<()> {
    match reached {
        Reached::Quiet => push_line(out, b"quiet"),
        Reached::ClauseConflict(clause) => push_places(alloc, "false", &[*clause], out),
        Reached::TheoryConflict(lit) => push_lits(alloc, "refused", &[*lit], out),
    }
}

// Adds the literals in the order of assignment.
fn push_literals(alloc: Global, trail: &Trail, out: &mut Vec<u8>) -> Option<()> {
    let mut lits = Vec::new(alloc);
    for place in 0..trail.len() {
        lits.push(trail.lit(place)).ok()?;
    }
    push_lits(alloc, "literals", &lits, out)
}

// Adds the level of each.
fn push_levels(alloc: Global, trail: &Trail, out: &mut Vec<u8>) -> Option<()> {
    let mut levels = Vec::new(alloc);
    for place in 0..trail.len() {
        levels.push(trail.level_of(trail.lit(place).var())).ok()?;
    }
    push_items(alloc, "levels", &levels, out)
}

// Adds the clause from which each followed that isn't the first of a level above 0.
fn push_reasons(alloc: Global, trail: &Trail, out: &mut Vec<u8>) -> Option<()> {
    let mut reasons = Vec::new(alloc);
    for place in 0..trail.len() {
        if let Some(reason) = trail.reason(trail.lit(place).var()) {
            reasons.push(reason).ok()?;
        }
    }
    push_places(alloc, "reasons", &reasons, out)
}

// Adds the trail, and how many edges are held.
fn push_run(alloc: Global, run: &Run, out: &mut Vec<u8>) -> Option<()> {
    push_literals(alloc, &run.trail, out)?;
    push_levels(alloc, &run.trail, out)?;
    push_reasons(alloc, &run.trail, out)?;
    push_items(alloc, "held", &[run.graph.mark()], out)
}

// Adds what a conflict teaches.
fn push_taught(
    alloc: Global,
    run: &Run,
    db: &Db,
    reached: &Reached,
    out: &mut Vec<u8>,
) -> Option<()>
    requires halted { IsHalted db.now run.now.links run.now.trail run.now.graph reached.now }
{
    match reached {
        Reached::ClauseConflict(clause) => push_lesson(alloc, &run.trail, db, *clause, out),
        Reached::Quiet | Reached::TheoryConflict(_) => Some(()),
    }
}

// Adds what follows from decisions, what a conflict teaches, and how many literals and edges level 0 leaves.
fn push_descent(
    alloc: Global,
    run: &mut Run,
    db: &Db,
    decisions: &[Lit],
    out: &mut Vec<u8>,
) -> Option<()>
    requires ready { IsReady db.now run.old.links run.old.trail run.old.graph }
    requires in_range { All (λ l. l.var < run.old.trail.vars) decisions.now }
{
    let reached = run.descend(db, decisions)?;
    push_reached(alloc, &reached, out)?;
    push_run(alloc, run, out)?;
    push_taught(alloc, run, db, &reached, out)?;
    run.trail.back_to(0, &mut run.graph);
    push_items(alloc, "left", &[run.trail.len(), run.graph.mark()], out)
}

impl Trails {
    /// No variables, nodes and clauses.
    pub fn new(alloc: Global) -> Trails {
        Trails {
            vars: 0,
            nodes: 0,
            db: Db::new(alloc),
            edges: Vec::new(alloc),
        }
    }

    // Begins a case of so many variables and nodes.
    fn begin(&mut self, alloc: Global, text: &str) -> Option<()> {
        let (vars, nodes) = two_of(text)?;
        self.vars = vars;
        self.nodes = nodes;
        self.db = Db::new(alloc);
        self.edges.clear();
        Some(())
    }

    // Adds what follows from decisions.
    fn push_decided(&self, alloc: Global, text: &str, out: &mut Vec<u8>) -> Option<()> {
        let decisions = lits_of(alloc, text)?;
        if !are_below(&decisions, self.vars) {
            return None;
        }
        let mut run = Run::new(alloc, self.vars, self.nodes, &self.db, &self.edges)?;
        push_descent(alloc, &mut run, &self.db, &decisions, out)
    }

    // Adds the edges of variables.
    fn push_edges(&self, alloc: Global, out: &mut Vec<u8>) -> Option<()> {
        let run = Run::new(alloc, self.vars, self.nodes, &self.db, &self.edges)?;
        push_links(alloc, &run.links, self.vars, out)
    }

    // Takes in what a line says of the case.
    fn add(&mut self, alloc: Global, mark: u8, text: &str) -> Option<()> {
        match mark {
            b'=' => self.begin(alloc, text),
            b':' => add_clause(&mut self.db, &lits_of(alloc, text)?),
            _ => self.edges.push(linked_of(alloc, text)?).ok(),
        }
    }

    // Adds what is asked of the case.
    fn answer(&self, alloc: Global, mark: u8, text: &str, out: &mut Vec<u8>) -> Option<()> {
        match mark {
            b'?' => self.push_decided(alloc, text, out),
            b'*' => push_clauses(alloc, &self.db, out),
            _ => self.push_edges(alloc, out),
        }
    }

    /// Takes in a line, and adds what it asks for.
    pub fn take(&mut self, alloc: Global, mark: u8, text: &[u8], out: &mut Vec<u8>) -> Option<()> {
        if let b'=' | b'?' | b'*' | b'%' = mark {
            push_marked(out, mark, text)?;
        }
        match mark {
            b'=' | b':' | b'~' => self.add(alloc, mark, text_of(text)?),
            b'?' | b'*' | b'%' => self.answer(alloc, mark, text_of(text)?, out),
            _ => Some(()),
        }
    }
}
