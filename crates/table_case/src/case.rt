//! A case that questions are on.

use crate::{formula_of, log_of, push_line};
use formula_arena::Arena;
use mt_model::{Formula, Log, NodeId};
use std::alloc::Global;

/// A formula and a log as texts, and the value that is sought of the formula.
#[derive(Drop)]
pub struct Case {
    pub formula: Vec<u8>,
    pub log: Vec<u8>,
    pub value: bool,
}

/// A log, and the nodes of a formula with its root.
#[derive(Drop)]
pub struct Parsed {
    pub log: Log,
    pub arena: Arena,
    pub root: NodeId,
}

impl Case {
    /// No formula, an empty log, and the value false.
    pub fn new(alloc: Global) -> Case {
        Case {
            formula: Vec::new(alloc),
            log: Vec::new(alloc),
            value: false,
        }
    }

    /// Begins the case of a formula, whose log is empty and whose value sought is false.
    pub fn begin(&mut self, alloc: Global, formula: &[u8]) -> Option<()> {
        self.formula = formula.to_vec(alloc).ok()?;
        self.log.clear();
        self.value = false;
        Some(())
    }

    /// Adds a line to the log.
    pub fn push_log_line(&mut self, text: &[u8]) -> Option<()> {
        push_line(&mut self.log, text)
    }

    /// The formula, if its text is one.
    pub fn formula(&self, alloc: Global) -> Option<Formula> {
        formula_of(alloc, &self.formula)
    }

    /// The log, if its text is one.
    pub fn log(&self, alloc: Global) -> Option<Log> {
        log_of(alloc, &self.log)
    }

    // The nodes of the formula and its root, if its text is one.
    fn nodes(&self, alloc: Global) -> Option<(Arena, NodeId)> {
        let formula = self.formula(alloc)?;
        let mut arena = Arena::new(alloc);
        let root = arena.intern(&formula).ok()?;
        Some((arena, root))
    }

    /// The log and the nodes of the formula, if their texts are ones.
    pub fn parsed(&self, alloc: Global) -> Option<Parsed> {
        let (arena, root) = self.nodes(alloc)?;
        let log = self.log(alloc)?;
        Some(Parsed { log, arena, root })
    }
}
