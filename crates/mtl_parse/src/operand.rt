//! The formulas that operators make of formulas, up to the greatest height.

ghost use Rattle.std.specs.Prelude.{◌≡◌, ◌<◌, ◌≤◌, ◌+◌, ◌↔◌, max, IfOk, IfSome, IsSome};
ghost use Rattle.mt_model.specs.Form.{And, Implies, Not, Or, form_of, height_of};
ghost use Rattle.mtl_parse.specs.Grammar.{infix_form, prefix_form};
ghost use Rattle.mtl_parse.specs.Machine.{capped};
ghost use Rattle.mtl_parse.specs.States.{form_in, infix_in, prefix_in};

use crate::token::{Infix, Prefix};
use mt_model::{Interval, MAX_HEIGHT, Tree};
use std::alloc::{AllocError, Global};
use std::marker::Model;

/// A formula of a height up to 200, with its height. Contracts see it as its tree.
#[derive(Drop)]
pub struct LowTree {
    tree: Box<Tree>,
    height: u32,
}

impl Model for LowTree {
    ghost use Rattle.std.specs.Prelude.{◌≡◌, ◌≤◌};
    ghost use Rattle.std.specs.Coded.{codes};
    ghost use Rattle.mt_model.specs.Form.{form_of, height_of};
    ghost use Rattle.mt_model.specs.contracts.tree.Tree as e;
    ghost use Rattle.mt_model.specs.declared.limits.TheConstants.{MAX_HEIGHT};
    ghost use Rattle.mt_model.specs.declared.tree.Tree.{Tree as Written};

    ghost Value = { Written };

    ghost coded = { Prim.hlevel (codes, e.the_row.coded) };

    ghost view = { λ o. o.tree.value };

    ghost invariant = { λ o. (o.height ≡ height_of (form_of o.tree.value)) × (o.height ≤ MAX_HEIGHT) };
}

impl LowTree {
    /// Its tree.
    pub fn into_tree(self) -> Tree
        ensures same { result ≡ self }
        ensures height { height_of (form_of result) ≤ MAX_HEIGHT }
    {
        let LowTree { tree, height: _ } = self;
        Box::into_inner(tree)
    }
}

/// A formula that was read. Of one that is higher than 200 nothing is kept.
#[derive(Drop)]
pub enum Operand {
    Low(LowTree),
    TooHigh,
}

// The only part of a new formula, with its height, which leaves room for one more.
#[derive(Drop)]
struct Part {
    tree: Box<Tree>,
    height: u32,
}

// The two parts of a new formula, with the height of the higher one, which leaves room for one more.
#[derive(Drop)]
struct Sides {
    left: Box<Tree>,
    right: Box<Tree>,
    height: u32,
}

#[tactic(auto, using(crate::proofs::Capping::tall_high))]
fn part_of(operand: Operand) -> Option<Part>
    ensures room { IsSome result ↔ (height_of (form_in operand) < MAX_HEIGHT) }
    ensures part { IfSome result (λ p. form_of p.tree.value ≡ form_in operand) }
    ensures height { IfSome result (λ p. p.height ≡ height_of (form_in operand)) }
{
    match operand {
        Operand::TooHigh => None,
        Operand::Low(low) => {
            let LowTree { tree, height } = low;
            if height < MAX_HEIGHT {
                Some(Part { tree, height })
            } else {
                None
            }
        }
    }
}

fn low_sides(left: LowTree, right: LowTree) -> Option<Sides>
    ensures room { IsSome result ↔ (max (height_of (form_of left)) (height_of (form_of right)) < MAX_HEIGHT) }
    ensures left { IfSome result (λ s. form_of s.left.value ≡ form_of left) }
    ensures right { IfSome result (λ s. form_of s.right.value ≡ form_of right) }
    ensures height { IfSome result (λ s. s.height ≡ max (height_of (form_of left)) (height_of (form_of right))) }
{
    let height = left.height.max(right.height);
    if height < MAX_HEIGHT {
        Some(Sides {
            left: left.tree,
            right: right.tree,
            height,
        })
    } else {
        None
    }
}

#[tactic(auto, using(crate::proofs::Capping::tall_high))]
fn sides_of(left: Operand, right: Operand) -> Option<Sides>
    ensures room { IsSome result ↔ (max (height_of (form_in left)) (height_of (form_in right)) < MAX_HEIGHT) }
    ensures left { IfSome result (λ s. form_of s.left.value ≡ form_in left) }
    ensures right { IfSome result (λ s. form_of s.right.value ≡ form_in right) }
    ensures height { IfSome result (λ s. s.height ≡ max (height_of (form_in left)) (height_of (form_in right))) }
{
    match left {
        Operand::TooHigh => None,
        Operand::Low(left) => match right {
            Operand::TooHigh => None,
            Operand::Low(right) => low_sides(left, right),
        },
    }
}

fn prefix_tree(op: Prefix, interval: Interval, operand: Box<Tree>) -> Tree
    ensures { form_of result ≡ prefix_form (prefix_in op) interval (form_of operand.value) }
{
    match op {
        Prefix::Eventually => Tree::Eventually(interval, operand),
        Prefix::Always => Tree::Always(interval, operand),
        Prefix::Once => Tree::Once(interval, operand),
        Prefix::Historically => Tree::Historically(interval, operand),
    }
}

fn infix_tree(op: Infix, interval: Interval, left: Box<Tree>, right: Box<Tree>) -> Tree
    ensures { form_of result ≡ infix_form (infix_in op) interval (form_of left.value) (form_of right.value) }
{
    match op {
        Infix::Until => Tree::Until(interval, left, right),
        Infix::Since => Tree::Since(interval, left, right),
    }
}

fn low(alloc: Global, tree: Tree, height: u32) -> Result<Operand, AllocError>
    requires same { height ≡ height_of (form_of tree) }
    requires within { height ≤ MAX_HEIGHT }
    ensures { IfOk result (λ o. form_in o ≡ form_of tree) }
{
    let tree = Box::new(alloc, tree)?;
    Ok(Operand::Low(LowTree { tree, height }))
}

impl Operand {
    /// A formula without parts.
    pub fn leaf(alloc: Global, tree: Tree) -> Result<Operand, AllocError>
        requires { height_of (form_of tree) ≡ 1 }
        ensures ok { IfOk result (λ o. form_in o ≡ form_of tree) }
    {
        low(alloc, tree, 1)
    }

    /// The negation.
    pub fn negated(self, alloc: Global) -> Result<Operand, AllocError>
        ensures ok { IfOk result (λ o. form_in o ≡ capped (Not (form_in self))) }
    {
        match part_of(self) {
            Some(part) => low(alloc, Tree::Not(part.tree), part.height + 1),
            None => Ok(Operand::TooHigh),
        }
    }

    /// The formula that a letter makes of it.
    pub fn timed(self, alloc: Global, op: Prefix, interval: Interval) -> Result<Operand, AllocError>
        ensures ok { IfOk result (λ o. form_in o ≡ capped (prefix_form (prefix_in op) interval (form_in self))) }
    {
        match part_of(self) {
            Some(part) => low(alloc, prefix_tree(op, interval, part.tree), part.height + 1),
            None => Ok(Operand::TooHigh),
        }
    }

    /// The formula that a letter makes of it and what stands on its right.
    pub fn timed_with(
        self,
        alloc: Global,
        op: Infix,
        interval: Interval,
        right: Operand,
    ) -> Result<Operand, AllocError>
        ensures ok { IfOk result (λ o. form_in o ≡ capped (infix_form (infix_in op) interval (form_in self) (form_in right))) }
    {
        match sides_of(self, right) {
            Some(sides) => low(
                alloc,
                infix_tree(op, interval, sides.left, sides.right),
                sides.height + 1,
            ),
            None => Ok(Operand::TooHigh),
        }
    }

    /// The conjunction with what stands on its right.
    pub fn and(self, alloc: Global, right: Operand) -> Result<Operand, AllocError>
        ensures ok { IfOk result (λ o. form_in o ≡ capped (And (form_in self) (form_in right))) }
    {
        match sides_of(self, right) {
            Some(sides) => low(alloc, Tree::And(sides.left, sides.right), sides.height + 1),
            None => Ok(Operand::TooHigh),
        }
    }

    /// The disjunction with what stands on its right.
    pub fn or(self, alloc: Global, right: Operand) -> Result<Operand, AllocError>
        ensures ok { IfOk result (λ o. form_in o ≡ capped (Or (form_in self) (form_in right))) }
    {
        match sides_of(self, right) {
            Some(sides) => low(alloc, Tree::Or(sides.left, sides.right), sides.height + 1),
            None => Ok(Operand::TooHigh),
        }
    }

    /// The implication of what stands on its right.
    pub fn implies(self, alloc: Global, right: Operand) -> Result<Operand, AllocError>
        ensures ok { IfOk result (λ o. form_in o ≡ capped (Implies (form_in self) (form_in right))) }
    {
        match sides_of(self, right) {
            Some(sides) => low(
                alloc,
                Tree::Implies(sides.left, sides.right),
                sides.height + 1,
            ),
            None => Ok(Operand::TooHigh),
        }
    }
}
