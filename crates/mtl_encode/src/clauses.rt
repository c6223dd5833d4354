//! Clauses of rules, over atoms that get their variables as they come.

ghost use Rattle.std.specs.Prelude.{◌≡◌, ◌≤◌, ◌<◌, ◌+◌, ◌-◌, ◌^◌, [], ◌∷◌, ◌++◌, length, OnOk, IfOk, IsTrue, Ok, Some};
ghost use Rattle.axiom_rules.specs.Atoms.{IsVar, with_atom};
ghost use Rattle.axiom_rules.specs.Clauses.{clause_of};
ghost use Rattle.mtl_encode.specs.Growth.{AreClauses, Gains, HasRoom, with_atoms};
ghost use Rattle.mtl_encode.specs.Instances.{kept, out_by};
ghost use Rattle.mtl_encode.specs.Problems.{ReadsAs, read_literal};

use crate::needless::is_needless;
use crate::workspace::{GUESSES, Guess, Workspace};
use axiom_rules::{
    Atom, AtomTable, Literal, Rule, RuleFault, RuleList, Rules, clauses_have_atoms_once,
};
use clause_db::{Db, Lit, Var};
use skew_bounds::Tight;
use std::alloc::{AllocError, Global};

/// Clauses, the rule of each, and the atoms in them.
#[derive(Drop)]
pub struct Clauses {
    pub db: Db,
    pub rules: RuleList,
    pub atoms: AtomTable,
}

// Whether a variable is that of an atom.
fn is_var_of(atoms: &AtomTable, var: Var, atom: Atom) -> bool
    ensures { IsTrue result → IsVar atoms.now var atom }
{
    var.get() < atoms.len() && atoms.atom(var) == atom
}

// The variable of an atom, which a guess says first.
fn var_of(atoms: &mut AtomTable, guess: Var, atom: Atom) -> Result<Var, AllocError>
    requires { length atoms.old < 2 ^ 32 - 1 }
    ensures var { IfOk result (λ v. IsVar atoms.new v atom) }
    ensures atoms { OnOk result (atoms.new ≡ with_atom atoms.old atom) }
{
    if is_var_of(atoms, guess, atom) {
        Ok(guess)
    } else {
        atoms.intern(atom)
    }
}

// A literal of an atom as one of its variable.
fn lit_of(atoms: &mut AtomTable, guess: &mut Guess, literal: Literal) -> Result<Lit, AllocError>
    requires { length atoms.old < 2 ^ 32 - 1 }
    ensures lit { IfOk result (λ l. read_literal atoms.new l ≡ Some literal) }
    ensures atoms { OnOk result (atoms.new ≡ with_atom atoms.old literal.atom) }
{
    let var = var_of(atoms, guess.var(), literal.atom)?;
    guess.learn(var);
    Ok(Lit::new(var, literal.positive))
}

// Makes `lits` the literals of a clause as those of its atoms' variables.
fn write_lits(
    lits: &mut Vec<Lit>,
    guesses: &mut [Guess; GUESSES],
    atoms: &mut AtomTable,
    clause: &[Literal],
) -> Result<(), AllocError>
    requires { length atoms.old + length clause.now ≤ 2 ^ 32 - 1 }
    ensures lits { OnOk result (ReadsAs atoms.new lits.new.items clause.now) }
    ensures atoms { OnOk result (atoms.new ≡ with_atoms atoms.old clause.now) }
{
    lits.clear();
    for (place, literal) in clause.iter().enumerate() {
        let lit = lit_of(atoms, &mut guesses[place % GUESSES], *literal)?;
        lits.push(lit)?;
    }
    Ok(())
}

impl Clauses {
    /// No clause, which takes no memory.
    pub fn new(alloc: Global) -> Clauses
        ensures rules { result.rules ≡ [] }
        ensures db { result.db ≡ [] }
        ensures atoms { result.atoms ≡ [] }
    {
        Clauses {
            db: Db::new(alloc),
            rules: RuleList::new(alloc),
            atoms: AtomTable::new(alloc),
        }
    }

    /// Adds a rule with its clause, whose literals are written to `lits`.
    pub fn push(
        &mut self,
        lits: &mut Vec<Lit>,
        guesses: &mut [Guess; GUESSES],
        rules: &Rules,
        rule: Rule,
        clause: &[Literal],
    ) -> Result<(), AllocError>
        requires clauses { AreClauses rules.now self.old }
        requires clause { clause_of rules.now rule ≡ Ok clause.now }
        requires atoms { length self.old.atoms + length clause.now ≤ 2 ^ 29 }
        requires rules { length self.old.rules < 2 ^ 29 }
        ensures gains { OnOk result (Gains rules.now self.old self.new (rule ∷ [])) }
        ensures atoms { OnOk result (length self.new.atoms ≤ length self.old.atoms + length clause.now) }
    {
        clauses_have_atoms_once();
        write_lits(lits, guesses, &mut self.atoms, clause)?;
        self.db.add(lits)?;
        self.rules.push(rule)
    }

    /// Adds a rule with its clause, where it has one and isn't needless.
    pub fn add(
        &mut self,
        workspace: &mut Workspace,
        rules: &Rules,
        tight: &Tight,
        rule: Rule,
    ) -> Result<(), AllocError>
        requires clauses { AreClauses rules.now self.old }
        requires room { HasRoom rules.now (self.old.rules ++ kept rules.now (out_by tight.now rules.now) rule) }
        ensures { OnOk result (Gains rules.now self.old self.new (kept rules.now (out_by tight.now rules.now) rule)) }
    {
        if is_needless(rules, tight, &rule) {
            return Ok(());
        }
        match rules.clause_of(&rule, &mut workspace.clause) {
            Ok(()) => self.push(
                &mut workspace.lits,
                &mut workspace.guesses,
                rules,
                rule,
                workspace.clause.as_slice(),
            ),
            Err(RuleFault::Memory) => Err(AllocError),
            Err(_) => Ok(()),
        }
    }
}
