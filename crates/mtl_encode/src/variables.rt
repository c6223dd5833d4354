//! The order of the variables, in which a search tries the atoms that it knows nothing of.

ghost use Rattle.std.specs.Prelude.{◌≡◌, ◌≤◌, ◌^◌, [], ◌∷◌, ◌++◌, length, map, All, Contains, IfOk, OnOk};
ghost use Rattle.std.specs.List.{range_with_len};
ghost use Rattle.std.specs.List.Sorted.{IsPermutation};
ghost use Rattle.mtl_encode.specs.Growth.{AreClauses};
ghost use Rattle.mtl_encode.specs.Variables.{AreMoved, ArePlaces, IsOrder, vars_in};

use crate::clauses::Clauses;
use axiom_rules::{Atom, AtomTable, Rules};
use clause_db::Var;
use mt_model::Log;
use std::alloc::{AllocError, Global};

/// An order: those come first, since they decide what the timing is, and of them those whose events are near in local
/// time, since the log leaves open which of these comes first.
#[derive(Clone, Copy, PartialEq, Eq, PartialOrd, Ord)]
pub struct RankedOrder {
    pub apart: u64,
    pub var: u32,
}

/// What follows from the orders: which events are at one instant, what atoms say of nodes, of which each comes after its
/// parts, and then which events are first ones.
#[derive(Clone, Copy, PartialEq, Eq, PartialOrd, Ord)]
pub enum Subject {
    OneInstant,
    OfNode(u32),
    First,
}

/// What an atom says of a node: that it is true follows from the others.
#[derive(Clone, Copy, PartialEq, Eq, PartialOrd, Ord)]
pub enum Part {
    Span,
    Gap,
    Wit,
    Truth,
}

/// An atom that is no order.
#[derive(Clone, Copy, PartialEq, Eq, PartialOrd, Ord)]
pub struct RankedOther {
    pub subject: Subject,
    pub part: Part,
    pub var: u32,
}

/// Variables with what orders them.
#[derive(Drop)]
pub struct Ranking {
    pub orders: Vec<RankedOrder>,
    pub others: Vec<RankedOther>,
}

// The local time of an event, and 0 where there is none.
fn local_at(log: &Log, e: u32) -> i128 {
    match log.rows().get(e as usize) {
        Some(row) => row.local,
        None => 0,
    }
}

// How far two events are apart in local time, or the most that a rank can say.
fn apart(log: &Log, e: u32, f: u32) -> u64 {
    u64::try_from(local_at(log, e).abs_diff(local_at(log, f))).unwrap_or(u64::MAX)
}

impl Ranking {
    // Adds a variable of an order.
    fn add_order(&mut self, apart: u64, var: u32) -> Result<(), AllocError>
        ensures { OnOk result (IsPermutation (vars_in self.old ++ var ∷ []) (vars_in self.new)) }
    {
        self.orders.push(RankedOrder { apart, var })?;
        Ok(())
    }

    // Adds a variable of another atom.
    fn add_other(&mut self, subject: Subject, part: Part, var: u32) -> Result<(), AllocError>
        ensures { OnOk result (IsPermutation (vars_in self.old ++ var ∷ []) (vars_in self.new)) }
    {
        self.others.push(RankedOther { subject, part, var })?;
        Ok(())
    }

    // Adds the variable of an atom.
    fn add(&mut self, log: &Log, atom: Atom, var: u32) -> Result<(), AllocError>
        ensures { OnOk result (IsPermutation (vars_in self.old ++ var ∷ []) (vars_in self.new)) }
    {
        match atom {
            Atom::Order { e, f, .. } => self.add_order(apart(log, e, f), var),
            Atom::Same { .. } => self.add_other(Subject::OneInstant, Part::Truth, var),
            Atom::Span { k, .. } => self.add_other(Subject::OfNode(k), Part::Span, var),
            Atom::Gap { k, .. } => self.add_other(Subject::OfNode(k), Part::Gap, var),
            Atom::Wit { k, .. } => self.add_other(Subject::OfNode(k), Part::Wit, var),
            Atom::Node { k, .. } => self.add_other(Subject::OfNode(k), Part::Truth, var),
            Atom::First { .. } => self.add_other(Subject::First, Part::Truth, var),
        }
    }
}

// The variables of a table with what orders them.
fn ranking_of(alloc: Global, log: &Log, atoms: &AtomTable) -> Result<Ranking, AllocError>
    ensures { IfOk result (λ ranking. IsPermutation (range_with_len 0 (length atoms.now)) (vars_in ranking)) }
{
    let mut ranking = Ranking {
        orders: Vec::new(alloc),
        others: Vec::new(alloc),
    };
    for v in 0..atoms.len() {
        ranking.add(log, atoms.atom(Var::new(v)), v)?;
    }
    Ok(ranking)
}

// The same in order. Other atoms stand in it group by group already, which a stable sort uses.
fn sorted(ranking: Ranking) -> Result<Ranking, AllocError>
    ensures { IfOk result (λ sorted. IsPermutation (vars_in ranking) (vars_in sorted)) }
{
    let Ranking {
        mut orders,
        mut others,
    } = ranking;
    orders.sort_unstable();
    others.sort()?;
    Ok(Ranking { orders, others })
}

// Adds the variables of orders.
fn push_orders(vars: &mut Vec<Var>, orders: &[RankedOrder]) -> Result<(), AllocError>
    ensures { OnOk result (vars.new.items ≡ vars.old.items ++ map (λ r. r.var) orders.now) }
{
    for order in orders {
        vars.push(Var::new(order.var))?;
    }
    Ok(())
}

// Adds the variables of other atoms.
fn push_others(vars: &mut Vec<Var>, others: &[RankedOther]) -> Result<(), AllocError>
    ensures { OnOk result (vars.new.items ≡ vars.old.items ++ map (λ r. r.var) others.now) }
{
    for other in others {
        vars.push(Var::new(other.var))?;
    }
    Ok(())
}

// The variables of a ranking.
fn vars_of(alloc: Global, ranking: &Ranking) -> Result<Vec<Var>, AllocError>
    ensures { IfOk result (λ vars. vars.items ≡ vars_in ranking.now) }
{
    let mut vars = Vec::new(alloc);
    push_orders(&mut vars, &ranking.orders)?;
    push_others(&mut vars, &ranking.others)?;
    Ok(vars)
}

// The variables of a table in the order of their ranks.
fn order_of(alloc: Global, log: &Log, atoms: &AtomTable) -> Result<Vec<Var>, AllocError>
    ensures { IfOk result (λ order. IsOrder (length atoms.now) order.items) }
{
    let ranking = ranking_of(alloc, log, atoms)?;
    vars_of(alloc, &sorted(ranking)?)
}

// The place of each variable in an order of all.
fn places_of(alloc: Global, order: &[Var]) -> Result<Vec<u32>, AllocError>
    requires order { IsOrder (length order.now) order.now }
    requires few { length order.now ≤ 2 ^ 29 }
    ensures { IfOk result (λ places. ArePlaces order.now places.items) }
{
    let mut places = vec![in alloc; 0; order.len()]?;
    for n in 0..order.len() {
        places[order[n].get() as usize] = n as u32;
    }
    Ok(places)
}

// Atoms in the order in which a search is to try them, and the place there of each one by its variable.
#[derive(Drop)]
pub struct Ordered {
    pub atoms: AtomTable,
    pub places: Vec<u32>,
}

// The atoms of a table in that order.
fn ordered_atoms(alloc: Global, log: &Log, atoms: &AtomTable) -> Result<Ordered, AllocError>
    requires few { length atoms.now ≤ 2 ^ 29 }
    ensures only { IfOk result (λ o. All (Contains atoms.now) o.atoms) }
    ensures places { IfOk result (λ o. AreMoved atoms.now o.atoms o.places.items) }
    ensures count { IfOk result (λ o. length o.atoms ≡ length atoms.now) }
{
    let order = order_of(alloc, log, atoms)?;
    let places = places_of(alloc, &order)?;
    let taken = atoms.taken(alloc, &order)?;
    Ok(Ordered {
        atoms: taken,
        places,
    })
}

impl Clauses {
    /// The same clauses over variables in the order in which a search is to try their atoms.
    pub fn in_order(self, alloc: Global, rules: &Rules) -> Result<Clauses, AllocError>
        requires clauses { AreClauses rules.now self }
        requires few { length self.atoms ≤ 2 ^ 29 }
        ensures rules { IfOk result (λ c. c.rules ≡ self.rules) }
        ensures clauses { IfOk result (λ c. AreClauses rules.now c) }
        ensures atoms { IfOk result (λ c. length c.atoms ≡ length self.atoms) }
    {
        let Clauses {
            db,
            rules: listed,
            atoms,
        } = self;
        let ordered = ordered_atoms(alloc, rules.log(), &atoms)?;
        // For the proof: the call says that each atom has one variable.
        let _ = (atoms.len(), ordered.atoms.len());
        let db = db.renamed(&ordered.places);
        Ok(Clauses {
            db,
            rules: listed,
            atoms: ordered.atoms,
        })
    }
}
