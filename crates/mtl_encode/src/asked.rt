//! The instances of rules that are asked for, with their clauses, and which literals ask for more.

ghost use Rattle.std.specs.Prelude.{◌≡◌, IfOk, OnOk};
ghost use Rattle.mtl_encode.specs.Asked.{AreAsked, IsHeld};

use crate::clauses::Clauses;
use crate::demands::demands_of;
use crate::held::Held;
use crate::scene::Scene;
use crate::workspace::Workspace;
use axiom_rules::{Atom, CHANGE_LASTS, Literal, Rule, RuleFault, SOME_IS_FIRST, TRUTH_HAS_WITNESS};
use clause_db::Lit;
use std::alloc::{AllocError, Global};

/// Which senses of an atom's literals were asked for.
#[derive(Clone, Copy)]
struct Senses {
    positive: bool,
    negative: bool,
}

/// The literals that were asked for, and those of them that haven't said yet what they ask for.
#[derive(Drop)]
struct Wanted {
    senses: Vec<Senses>,
    open: Vec<Lit>,
}

impl Wanted {
    fn new(alloc: Global) -> Wanted {
        Wanted {
            senses: Vec::new(alloc),
            open: Vec::new(alloc),
        }
    }

    // Notes that a literal is asked for: whether it wasn't yet.
    fn note(&mut self, lit: Lit) -> Result<bool, AllocError> {
        let place = lit.var().get() as usize;
        for _ in self.senses.len()..place + 1 {
            self.senses.push(Senses {
                positive: false,
                negative: false,
            })?;
        }
        let Some(senses) = self.senses.get_mut(place) else {
            return Ok(false);
        };
        let sense = if lit.positive() {
            &mut senses.positive
        } else {
            &mut senses.negative
        };
        let known = *sense;
        *sense = true;
        Ok(!known)
    }

    // Takes in the literals of a clause, but for its head.
    fn take(&mut self, lits: &[Lit], clause: &[Literal], head: Literal) -> Result<(), AllocError> {
        for (lit, literal) in lits.iter().zip(clause) {
            let asks = *literal != head && !matches!(literal.atom, Atom::Order { .. });
            if asks && self.note(*lit)? {
                self.open.push(*lit)?;
            }
        }
        Ok(())
    }
}

/// How much a part may have of the kinds of instances whose clauses are long.
#[derive(Clone, Copy)]
pub struct Most {
    /// How many instances may say that some row is a witness, which name all rows.
    pub witnesses: u32,
    /// How many literals those clauses may have that say what a change makes of a proposition, and that name all its pulses:
    /// once they have as many, no more of them are taken.
    pub literals: usize,
}

impl Most {
    /// As much as there is.
    pub const ALL: Most = Most {
        witnesses: u32::MAX,
        literals: usize::MAX,
    };

    // Whether nothing more is left for an instance.
    fn is_used_up(self, rule: Rule) -> bool {
        match rule.number {
            TRUTH_HAS_WITNESS => self.witnesses == 0,
            CHANGE_LASTS => self.literals == 0,
            _ => false,
        }
    }

    // What is left behind an instance whose clause has so many literals.
    fn less(self, rule: Rule, literals: usize) -> Most {
        let Most {
            witnesses,
            literals: left,
        } = self;
        match rule.number {
            TRUTH_HAS_WITNESS => Most {
                witnesses: witnesses.saturating_sub(1),
                literals: left,
            },
            CHANGE_LASTS => Most {
                witnesses,
                literals: left.saturating_sub(literals),
            },
            _ => self,
        }
    }
}

/// The instances that a value sought asks for, as they come.
#[derive(Drop)]
struct Asked {
    held: Held,
    wanted: Wanted,
    workspace: Workspace,
    // How much more of long clauses there may be.
    left: Most,
    is_cut: bool,
}

/// The clauses of instances that a value sought asks for, and whether some were left out for there being too many of their
/// kind. No clause speaks of the latter: whoever searches may take it as a hint that more can be asked for.
#[derive(Drop)]
pub struct AskedClauses {
    pub clauses: Clauses,
    pub is_cut: bool,
}

impl Asked {
    // Adds an instance that a literal asks for, whose negation is the head of its clause, but where it has no clause or the
    // bounds make that true, or it is there.
    fn add(&mut self, scene: Scene<'_>, head: Literal, rule: Rule) -> Result<(), AllocError>
        requires held { IsHeld scene.rules.now self.old.held }
        ensures held { OnOk result (IsHeld scene.entry.rules.now self.new.held) }
    {
        if self.held.has(rule) {
            return Ok(());
        }
        if self.left.is_used_up(rule) {
            self.is_cut = true;
            return Ok(());
        }
        match scene.rules.clause_of(&rule, &mut self.workspace.clause) {
            Ok(()) => {}
            Err(RuleFault::Memory) => return Err(AllocError),
            Err(_) => return Ok(()),
        }
        if scene.is_met(self.workspace.clause.as_slice(), head) {
            return Ok(());
        }
        self.left = self.left.less(rule, self.workspace.clause.len());
        if self.held.add(&mut self.workspace, scene.rules, rule)? {
            let workspace = &self.workspace;
            self.wanted
                .take(&workspace.lits, workspace.clause.as_slice(), head)?;
        }
        Ok(())
    }

    // The same of several.
    fn add_all(&mut self, scene: Scene<'_>, head: Literal, rules: &[Rule]) -> Result<(), AllocError>
        requires held { IsHeld scene.rules.now self.old.held }
        ensures held { OnOk result (IsHeld scene.entry.rules.now self.new.held) }
    {
        for rule in rules {
            self.add(scene, head, *rule)?;
        }
        Ok(())
    }

    // The next literal that hasn't said yet what it asks for.
    fn next(&mut self) -> Option<Literal>
        ensures held { self.new.held ≡ self.old.held }
    {
        let lit = self.wanted.open.pop()?;
        let atoms = &self.held.clauses.atoms;
        if lit.var().get() < atoms.len() {
            Some(Literal {
                atom: atoms.atom(lit.var()),
                positive: lit.positive(),
            })
        } else {
            None
        }
    }

    // Adds all that is asked for, from the rows on that can be first.
    fn ask(&mut self, alloc: Global, scene: Scene<'_>) -> Result<(), AllocError>
        requires held { IsHeld scene.rules.now self.old.held }
        ensures held { OnOk result (IsHeld scene.entry.rules.now self.new.held) }
    {
        let first = Rule {
            number: SOME_IS_FIRST,
            args: [0, 0, 0, 0],
        };
        // A literal that the clause lacks: each of its own literals is asked for.
        self.add(scene, Literal::default().negated(), first)?;
        let mut demands = Vec::new(alloc);
        'literals: for _turn in 0..u32::MAX {
            let Some(literal) = self.next() else {
                break 'literals;
            };
            demands.clear();
            demands_of(scene, literal, &mut demands)?;
            self.add_all(scene, literal.negated(), &demands)?;
        }
        Ok(())
    }
}

/// The clauses of the instances that the value sought asks for, with so much of the long ones.
pub fn asked_of(alloc: Global, scene: Scene<'_>, most: Most) -> Result<AskedClauses, AllocError>
    ensures { IfOk result (λ asked. AreAsked scene.entry.rules.now asked.clauses) }
{
    let mut asked = Asked {
        held: Held::new(alloc),
        wanted: Wanted::new(alloc),
        workspace: Workspace::new(alloc),
        left: most,
        is_cut: false,
    };
    asked.ask(alloc, scene)?;
    let Asked { held, is_cut, .. } = asked;
    let Held { clauses, .. } = held;
    Ok(AskedClauses { clauses, is_cut })
}
