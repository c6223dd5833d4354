//! A problem: clauses over atoms, and difference constraints.

use axiom_rules::{AtomTable, RuleList};
use clause_db::Db;
use mt_model::BoundList;
use neg_cycle::EdgeList;

/// What is to be solved: truth values of atoms that make a literal of each clause true, with numbers of nodes
/// that meet each edge, and of the order atoms just those that are true.
#[derive(Drop)]
pub struct Problem {
    /// The clauses, over the variables of the atoms.
    pub db: Db,
    /// The rule of each clause.
    pub rules: RuleList,
    /// The atoms by their variables.
    pub atoms: AtomTable,
    /// The bounds of the log.
    pub bounds: BoundList,
    /// Their edges, in the log's unit of time.
    pub edges: EdgeList,
    /// The number of nodes of the edges: node 0 is the zero moment, node e + 1 is event e, and behind the events
    /// stands a node for each clock.
    pub nodes: u32,
}

/// The problem of instances that a value asks for.
#[derive(Drop)]
pub struct Part {
    /// Their clauses.
    pub problem: Problem,
    /// Whether instances were left out for there being too many of their kind. No clause speaks of it: it is a
    /// hint that more can be asked for.
    pub is_cut: bool,
}
