//! What a search has derived: clauses, the hint that cites each, and the lines.

ghost use Rattle.std.specs.Prelude.{◌≡◌, ◌+◌, ◌-◌, ◌^◌, ◌<◌, [], ◌∷◌, ◌++◌, IsTrue, length, map, set, All, IfOk, OnOk};
ghost use Rattle.proof_log.specs.declared.line.Hint.TheVariants as hint;
ghost use Rattle.clause_db.specs.Literals.{HasVarsOnce};
ghost use Rattle.cdcl_core.specs.Orders.{read_lit};
ghost use Rattle.cdcl_core.specs.Recording.{HasNumbers, IsRuleInRange, cite_at, is_open};

use crate::cites::Cites;
use crate::walk::literal_of;
use axiom_rules::{Atom, AtomTable, RuleList};
use clause_db::{ClauseRef, Db, Lit};
use proof_log::{Hints, Line, Lines, Lits};
use std::alloc::{AllocError, Global};
use std::mem::replace;

/// The clauses, the hint by which a line cites each of them, and the lines that were derived.
#[derive(Drop)]
pub struct Derived {
    pub db: Db,
    pub cites: Cites,
    pub lines: Lines,
}

// The numbers in an atom are in range by their types.
fn numbers_fit(atom: Atom)
    ensures numbers { HasNumbers atom }
{
    match atom {
        Atom::Order { .. } | Atom::Node { .. } | Atom::First { .. } => {}
        Atom::Same { .. } | Atom::Wit { .. } | Atom::Span { .. } | Atom::Gap { .. } => {}
    }
}

/// The literals of atoms that literals of their variables stand for.
pub fn read_lits(alloc: Global, atoms: &AtomTable, lits: &[Lit]) -> Result<Lits, AllocError>
    requires within { All (λ l. l.var < length atoms.now) lits.now }
    ensures literals { IfOk result (λ read. read ≡ map (read_lit atoms.now) lits.now) }
    ensures numbers { IfOk result (λ read. All (λ l. HasNumbers l.atom) read) }
{
    let mut read = Lits::new(alloc);
    for lit in lits {
        let literal = literal_of(atoms, *lit);
        numbers_fit(literal.atom);
        read.push(literal)?;
    }
    Ok(read)
}

/// The hints that cite these clauses.
pub fn read_hints(alloc: Global, cites: &Cites, refs: &[ClauseRef]) -> Result<Hints, AllocError>
    requires within { All (λ c. c < length cites.now) refs.now }
    ensures hints { IfOk result (λ hints. hints ≡ map (cite_at cites.now) refs.now) }
{
    let mut hints = Hints::new(alloc);
    for clause in refs {
        hints.push(cites.hint(*clause))?;
    }
    Ok(hints)
}

impl Derived {
    /// These clauses, each of which is cited by its rule, and no lines.
    pub fn begin(alloc: Global, db: Db, rules: RuleList) -> Derived
        ensures clauses { result.db ≡ db }
        ensures cites { result.cites ≡ map hint.Rule rules }
        ensures none { result.lines ≡ [] }
        ensures in_range { All IsRuleInRange rules }
    {
        Derived {
            db,
            cites: Cites::new(alloc, rules),
            lines: Lines::new(alloc),
        }
    }

    /// Adds a line and its clause, which later lines cite by the line's number.
    pub fn add(&mut self, lits: &[Lit], line: Line) -> Result<ClauseRef, AllocError>
        requires once { HasVarsOnce lits.now }
        requires clause_room { length self.old.db < 2 ^ 32 - 1 }
        requires line_room { length self.old.lines < 2 ^ 32 - 1 }
        ensures place { IfOk result (λ c. c ≡ length self.old.db) }
        ensures clause { OnOk result (self.new.db ≡ self.old.db ++ lits.now ∷ []) }
        ensures cite { OnOk result (self.new.cites ≡ self.old.cites ++ hint.Line (length self.old.lines + 1) ∷ []) }
        ensures line { OnOk result (self.new.lines ≡ self.old.lines ++ line ∷ []) }
    {
        self.lines.push(line)?;
        self.cites.push(self.lines.len() as u32)?;
        self.db.add(lits)
    }

    /// Adds a clause of this literal alone, whose line isn't written yet.
    pub fn assume(&mut self, lit: Lit) -> Result<(), AllocError>
        requires clause_room { length self.old.db < 2 ^ 32 - 1 }
        ensures clause { OnOk result (self.new.db ≡ self.old.db ++ (lit ∷ []) ∷ []) }
        ensures cite { OnOk result (self.new.cites ≡ self.old.cites ++ hint.Line 0 ∷ []) }
        ensures line { OnOk result (self.new.lines ≡ self.old.lines) }
    {
        self.cites.push(0)?;
        self.db.add(&[lit])?;
        Ok(())
    }

    /// Adds a clause of each of these literals alone, whose lines aren't written yet.
    pub fn assume_all(&mut self, assumed: &[Lit]) -> Result<(), AllocError>
        requires room { length self.old.db + length assumed.now < 2 ^ 32 - 1 }
        ensures clauses { OnOk result (self.new.db ≡ self.old.db ++ map (λ l. l ∷ []) assumed.now) }
        ensures cites { OnOk result (self.new.cites ≡ self.old.cites ++ map (λ l. hint.Line 0) assumed.now) }
        ensures lines { OnOk result (self.new.lines ≡ self.old.lines) }
    {
        for lit in assumed {
            self.assume(*lit)?;
        }
        Ok(())
    }

    /// Adds the line of such a clause.
    pub fn settle(&mut self, clause: ClauseRef, line: Line) -> Result<(), AllocError>
        requires within { clause < length self.old.cites }
        requires open { IsTrue (is_open (cite_at self.old.cites clause)) }
        requires line_room { length self.old.lines < 2 ^ 32 - 1 }
        ensures clauses { OnOk result (self.new.db ≡ self.old.db) }
        ensures cite { OnOk result (self.new.cites ≡ set self.old.cites clause (hint.Line (length self.old.lines + 1))) }
        ensures line { OnOk result (self.new.lines ≡ self.old.lines ++ line ∷ []) }
    {
        self.lines.push(line)?;
        self.cites.settle(clause, self.lines.len() as u32);
        Ok(())
    }

    /// Gives the lines out, after which there are none.
    pub fn take_lines(&mut self, alloc: Global) -> Lines
        ensures lines { result ≡ self.old.lines }
    {
        replace(&mut self.lines, Lines::new(alloc))
    }
}
