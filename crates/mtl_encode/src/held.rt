//! Clauses of instances of rules, each of which is there once.

ghost use Rattle.std.specs.Prelude.{◌≡◌, ◌<◌, ◌≤◌, ◌+◌, ◌^◌, length, IsTrue, OnOk, Ok};
ghost use Rattle.axiom_rules.specs.Clauses.{clause_of};
ghost use Rattle.axiom_rules.specs.Sought.{Sought};
ghost use Rattle.mtl_encode.specs.Asked.{IsHeld};

use crate::clauses::Clauses;
use crate::workspace::Workspace;
use axiom_rules::{Rule, Rules};
use indexmap::IndexSet;
use std::alloc::{AllocError, Global};

/// An instance of a rule, as it is looked up.
#[derive(Clone, Copy, PartialEq, Eq, Hash)]
pub struct Instance {
    pub number: u8,
    pub args: [u32; 4],
}

/// Clauses, and the instances that they are of.
#[derive(Drop)]
pub struct Held {
    pub clauses: Clauses,
    pub instances: IndexSet<Instance>,
}

// How many clauses there are at most, and how many atoms in them.
const MOST: usize = 1 << 29;

impl Held {
    /// None.
    pub fn new(alloc: Global) -> Held
        ensures { (s : Sought) → IsHeld s result }
    {
        Held {
            clauses: Clauses::new(alloc),
            instances: IndexSet::new(alloc),
        }
    }

    // Whether there is room for a clause of so many literals.
    fn has_room(&self, literals: usize) -> bool
        ensures rules { IsTrue result → length self.now.clauses.rules < 2 ^ 29 }
        ensures atoms { IsTrue result → length self.now.clauses.atoms + literals ≤ 2 ^ 29 }
    {
        let Clauses { rules, atoms, .. } = &self.clauses;
        rules.len() < MOST && literals <= MOST && atoms.len() as usize <= MOST - literals
    }

    /// Whether an instance is there.
    pub fn has(&self, rule: Rule) -> bool {
        let Rule { number, args } = rule;
        self.instances.contains(&Instance { number, args })
    }

    /// Adds an instance with its clause, which stands in the workspace: whether it did. It doesn't where the instance is
    /// there, or where there is no room.
    pub fn add(
        &mut self,
        workspace: &mut Workspace,
        rules: &Rules,
        rule: Rule,
    ) -> Result<bool, AllocError>
        requires held { IsHeld rules.now self.old }
        requires clause { clause_of rules.now rule ≡ Ok workspace.old.clause.items }
        ensures held { OnOk result (IsHeld rules.now self.new) }
    {
        if !self.has_room(workspace.clause.len()) {
            return Ok(false);
        }
        let Rule { number, args } = rule;
        if !self.instances.insert(Instance { number, args })? {
            return Ok(false);
        }
        self.clauses.push(
            &mut workspace.lits,
            &mut workspace.guesses,
            rules,
            rule,
            workspace.clause.as_slice(),
        )?;
        Ok(true)
    }
}
