//! What a walk over a formula has left to do, in lists of its own: so no height asks for more of the stack.

ghost use Rattle.std.specs.Prelude.{◌≡◌, ◌<◌, ◌∷◌, ◌++◌, [], length, OnOk};
ghost use Rattle.mt_model.specs.Form.{Implies, Or, form_of};
ghost use Rattle.formula_arena.specs.Walks.{over_each, over_some, over_two, steps_in, steps_of};

use crate::node::Operator;
use mt_model::{Name, NodeId, Tree};
use std::alloc::AllocError;

/// What is done next. An operator stands over the nodes that wait, those that were made last.
#[derive(Clone, Copy)]
pub enum Task<'a> {
    /// All that the core of a tree comes to.
    Tree(&'a Tree),
    True,
    /// A proposition, by its host and its name.
    Prop(&'a Name, &'a Name),
    Not,
    Over(Operator),
}

// An operator over two trees.
fn push_two<'a>(
    tasks: &mut Vec<Task<'a>>,
    operator: Operator,
    left: &'a Tree,
    right: &'a Tree,
) -> Result<(), AllocError>
    ensures { OnOk result (steps_in tasks.new.items ≡ over_two operator (form_of left.now) (form_of right.now) ++ steps_in tasks.old.items) }
{
    tasks.extend_from_slice(&[Task::Over(operator), Task::Tree(right), Task::Tree(left)])
}

// An operator whose left side is `true`.
fn push_some<'a>(
    tasks: &mut Vec<Task<'a>>,
    operator: Operator,
    tree: &'a Tree,
) -> Result<(), AllocError>
    ensures { OnOk result (steps_in tasks.new.items ≡ over_some operator (form_of tree.now) ++ steps_in tasks.old.items) }
{
    tasks.extend_from_slice(&[Task::Over(operator), Task::Tree(tree), Task::True])
}

// The dual of an operator whose left side is `true`: the negation of the operator over the negation of a tree.
fn push_each<'a>(
    tasks: &mut Vec<Task<'a>>,
    operator: Operator,
    tree: &'a Tree,
) -> Result<(), AllocError>
    ensures { OnOk result (steps_in tasks.new.items ≡ over_each operator (form_of tree.now) ++ steps_in tasks.old.items) }
{
    tasks.extend_from_slice(&[
        Task::Not,
        Task::Over(operator),
        Task::Not,
        Task::Tree(tree),
        Task::True,
    ])
}

fn push_or<'a>(tasks: &mut Vec<Task<'a>>, left: &'a Tree, right: &'a Tree) -> Result<(), AllocError>
    ensures { OnOk result (steps_in tasks.new.items ≡ steps_of (Or (form_of left.now) (form_of right.now)) ++ steps_in tasks.old.items) }
{
    tasks.extend_from_slice(&[
        Task::Not,
        Task::Over(Operator::And),
        Task::Not,
        Task::Tree(right),
        Task::Not,
        Task::Tree(left),
    ])
}

fn push_implies<'a>(
    tasks: &mut Vec<Task<'a>>,
    left: &'a Tree,
    right: &'a Tree,
) -> Result<(), AllocError>
    ensures { OnOk result (steps_in tasks.new.items ≡ steps_of (Implies (form_of left.now) (form_of right.now)) ++ steps_in tasks.old.items) }
{
    tasks.extend_from_slice(&[
        Task::Not,
        Task::Over(Operator::And),
        Task::Not,
        Task::Tree(right),
        Task::Tree(left),
    ])
}

/// Adds what the core of a tree comes to. The next task stands last.
pub fn push_tasks<'a>(tasks: &mut Vec<Task<'a>>, tree: &'a Tree) -> Result<(), AllocError>
    ensures steps { OnOk result (steps_in tasks.new.items ≡ steps_of (form_of tree.now) ++ steps_in tasks.old.items) }
{
    match tree {
        Tree::True => tasks.extend_from_slice(&[Task::True]),
        Tree::False => tasks.extend_from_slice(&[Task::Not, Task::True]),
        Tree::Prop { host, name } => tasks.extend_from_slice(&[Task::Prop(host, name)]),
        Tree::Not(f) => tasks.extend_from_slice(&[Task::Not, Task::Tree(f)]),
        Tree::And(f, g) => push_two(tasks, Operator::And, f, g),
        Tree::Or(f, g) => push_or(tasks, f, g),
        Tree::Implies(f, g) => push_implies(tasks, f, g),
        Tree::Until(interval, f, g) => push_two(tasks, Operator::Until(*interval), f, g),
        Tree::Since(interval, f, g) => push_two(tasks, Operator::Since(*interval), f, g),
        Tree::Eventually(interval, f) => push_some(tasks, Operator::Until(*interval), f),
        Tree::Once(interval, f) => push_some(tasks, Operator::Since(*interval), f),
        Tree::Always(interval, f) => push_each(tasks, Operator::Until(*interval), f),
        Tree::Historically(interval, f) => push_each(tasks, Operator::Since(*interval), f),
    }
}

/// Adds a node to those that wait.
pub fn let_wait(waiting: &mut Vec<NodeId>, node: NodeId) -> Result<(), AllocError>
    ensures ok { OnOk result (waiting.new.items ≡ waiting.old.items ++ node ∷ []) }
{
    waiting.push(node)?;
    Ok(())
}

/// The node that waits since the shortest time, which waits no longer.
pub fn pop_waiting(waiting: &mut Vec<NodeId>) -> NodeId
    requires { 0 < length waiting.old.items }
    ensures last { waiting.old.items ≡ waiting.new.items ++ result ∷ [] }
{
    match waiting.pop() {
        Some(node) => node,
        None => unreachable!(),
    }
}
