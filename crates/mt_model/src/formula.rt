//! Valid formulas: which trees are formulas, and which of their hosts a log lacks.

ghost use Rattle.std.specs.Prelude.{◌≡◌, ◌↔◌, ◌≤◌, ◌<◌, ◌+◌, ◌^◌, ◌&&◌, not, true, length, IsTrue, IsSome, IfSome, IfOk, IfErr, OnOk, Some, None};
ghost use Rattle.std.specs.List.{list_all};
ghost use Rattle.mt_model.specs.Form.{IsFormula, form_of, height_of, intervals_of, is_interval, is_named, propositions_of};
ghost use Rattle.mt_model.specs.Name.{is_name, is_reserved};
ghost use Rattle.mt_model.specs.State.{unknown_from, unknown_host};

use crate::name::is_reserved_name;
use crate::{Interval, Log, MAX_DISTANCE, MAX_HEIGHT, Name, TOO_MANY_PROPOSITIONS, Tree};
use std::marker::Model;

/// A valid formula, which contracts see as its tree.
///
/// Its height is at most 200, where a leaf has height 1, it has fewer than 2^31 propositions, no host
/// of them is called `true`, `false` or `inf`, and no interval is empty or has a bound above 10^18.
#[derive(Drop)]
pub struct Formula {
    tree: Tree,
}

impl Model for Formula {
    ghost use Rattle.mt_model.specs.declared.tree.Tree.{Tree as Written};
    ghost use Rattle.mt_model.specs.contracts.tree.Tree as e;
    ghost use Rattle.std.specs.Coded.{codes};
    ghost use Rattle.mt_model.specs.Form.{IsFormula, form_of};

    ghost Value = { Written };

    ghost coded = { Prim.hlevel (codes, e.the_row.coded) };

    ghost view = { λ f. f.tree };

    ghost invariant = { λ f. IsFormula (form_of f.tree) };
}

fn is_sound(interval: &Interval) -> bool
    ensures { result ≡ is_interval interval.now }
{
    interval.low <= MAX_DISTANCE
        && interval
            .high
            .is_none_or(|high| high <= MAX_DISTANCE && interval.low <= high)
}

// Whether a tree's height is at most a limit. It looks no deeper than that.
fn is_within(tree: &Tree, limit: u32) -> bool
    ensures { IsTrue result ↔ (height_of (form_of tree.now) ≤ limit) }
{
    if limit == 0 {
        return false;
    }
    match tree {
        Tree::True | Tree::False | Tree::Prop { host: _, name: _ } => true,
        Tree::Not(f)
        | Tree::Eventually(_, f)
        | Tree::Always(_, f)
        | Tree::Once(_, f)
        | Tree::Historically(_, f) => is_within(f, limit - 1),
        Tree::And(f, g)
        | Tree::Or(f, g)
        | Tree::Implies(f, g)
        | Tree::Until(_, f, g)
        | Tree::Since(_, f, g) => is_within(f, limit - 1) && is_within(g, limit - 1),
    }
}

// The room that is left beside a tree's propositions, where they have room.
fn room_beside(tree: &Tree, room: u32) -> Option<u32>
    ensures fits { IsSome result ↔ (length (propositions_of (form_of tree.now)) ≤ room) }
    ensures left { IfSome result (λ left. left + length (propositions_of (form_of tree.now)) ≡ room) }
{
    match tree {
        Tree::True | Tree::False => Some(room),
        Tree::Prop { host: _, name: _ } => room.checked_sub(1),
        Tree::Not(f)
        | Tree::Eventually(_, f)
        | Tree::Always(_, f)
        | Tree::Once(_, f)
        | Tree::Historically(_, f) => room_beside(f, room),
        Tree::And(f, g)
        | Tree::Or(f, g)
        | Tree::Implies(f, g)
        | Tree::Until(_, f, g)
        | Tree::Since(_, f, g) => room_beside(g, room_beside(f, room)?),
    }
}

// Whether a proposition's host is not called by a reserved name. Its names are names.
fn is_host_name(host: &Name, name: &Name) -> bool
    ensures host { result ≡ not (is_reserved host.now) }
    ensures names { (is_name host.now && is_name name.now) ≡ true }
{
    // What a name is, its bytes are known to be.
    let _ = name.bytes();
    !is_reserved_name(host)
}

// Whether no proposition is of a host whose name is reserved. The names in it are names.
fn has_host_names(tree: &Tree) -> bool
    ensures hosts { result ≡ list_all (λ p. not (is_reserved p.host)) (propositions_of (form_of tree.now)) }
    ensures names { list_all is_named (propositions_of (form_of tree.now)) ≡ true }
{
    match tree {
        Tree::True | Tree::False => true,
        Tree::Prop { host, name } => is_host_name(host, name),
        Tree::Not(f)
        | Tree::Eventually(_, f)
        | Tree::Always(_, f)
        | Tree::Once(_, f)
        | Tree::Historically(_, f) => has_host_names(f),
        Tree::And(f, g)
        | Tree::Or(f, g)
        | Tree::Implies(f, g)
        | Tree::Until(_, f, g)
        | Tree::Since(_, f, g) => {
            let left = has_host_names(f);
            let right = has_host_names(g);
            left && right
        }
    }
}

// Whether no interval is empty or out of range.
fn has_intervals(tree: &Tree) -> bool
    ensures { result ≡ list_all is_interval (intervals_of (form_of tree.now)) }
{
    match tree {
        Tree::True | Tree::False | Tree::Prop { host: _, name: _ } => true,
        Tree::Not(f) => has_intervals(f),
        Tree::And(f, g) | Tree::Or(f, g) | Tree::Implies(f, g) => {
            has_intervals(f) && has_intervals(g)
        }
        Tree::Until(interval, f, g) | Tree::Since(interval, f, g) => {
            is_sound(interval) && has_intervals(f) && has_intervals(g)
        }
        Tree::Eventually(interval, f)
        | Tree::Always(interval, f)
        | Tree::Once(interval, f)
        | Tree::Historically(interval, f) => is_sound(interval) && has_intervals(f),
    }
}

fn is_valid(tree: &Tree) -> bool
    ensures { IsTrue result ↔ IsFormula (form_of tree.now) }
{
    is_within(tree, MAX_HEIGHT)
        && room_beside(tree, TOO_MANY_PROPOSITIONS - 1).is_some()
        && has_host_names(tree)
        && has_intervals(tree)
}

// The number that follows those of a tree's propositions, which are counted from `number` on; or, as
// the error, the number of the first one whose host is not in the log.
#[tactic(auto, using(crate::proofs::SearchLemmas::position_from_none, crate::proofs::SearchLemmas::position_from_some))]
fn pass_hosts(tree: &Tree, log: &Log, number: u32) -> Result<u32, u32>
    requires { number + length (propositions_of (form_of tree.now)) < 2 ^ 32 }
    ensures passed { IfOk result (λ next. next ≡ number + length (propositions_of (form_of tree.now))) }
    ensures known { OnOk result (unknown_from log.now number (form_of tree.now) ≡ None) }
    ensures unknown { IfErr result (λ found. unknown_from log.now number (form_of tree.now) ≡ Some found) }
{
    match tree {
        Tree::True | Tree::False => Ok(number),
        Tree::Prop { host, name: _ } => match log.host_named(host) {
            Some(_) => Ok(number + 1),
            None => Err(number),
        },
        Tree::Not(f)
        | Tree::Eventually(_, f)
        | Tree::Always(_, f)
        | Tree::Once(_, f)
        | Tree::Historically(_, f) => pass_hosts(f, log, number),
        Tree::And(f, g)
        | Tree::Or(f, g)
        | Tree::Implies(f, g)
        | Tree::Until(_, f, g)
        | Tree::Since(_, f, g) => pass_hosts(g, log, pass_hosts(f, log, number)?),
    }
}

impl Formula {
    /// The formula of this tree, and None exactly where it is no valid one. Takes no memory.
    pub fn new(tree: Tree) -> Option<Formula>
        ensures valid { IsSome result ↔ IsFormula (form_of tree) }
        ensures tree { IfSome result (λ f. f ≡ tree) }
    {
        if is_valid(&tree) {
            Some(Formula { tree })
        } else {
            None
        }
    }

    /// Its tree.
    pub fn tree(&self) -> &Tree
        ensures valid { IsFormula (form_of self.now) }
        ensures same { result.now ≡ self.now }
    {
        &self.tree
    }

    /// The number, from 0 and from left to right, of the first proposition whose host is not in the
    /// log, and None where there is none. Takes no memory.
    pub fn unknown_host(&self, log: &Log) -> Option<u32>
        ensures number { result ≡ unknown_host log.now (form_of self.now) }
    {
        pass_hosts(&self.tree, log, 0).err()
    }
}
