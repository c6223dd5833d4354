//! The nodes of formulas' cores, and the propositions that they name.

ghost use Rattle.std.specs.Prelude.{◌≡◌};
ghost use Rattle.formula_arena.specs.Operators.{node_over};

use mt_model::{Interval, Name, NodeId, PropId};

/// A node of an arena: an operator of core trees over nodes of smaller numbers.
#[derive(Clone, Copy, PartialEq, Eq, Hash)]
pub enum Core {
    True,
    Prop(PropId),
    Not(NodeId),
    And(NodeId, NodeId),
    Until(Interval, NodeId, NodeId),
    Since(Interval, NodeId, NodeId),
}

/// An operator over two nodes.
#[derive(Clone, Copy)]
pub enum Operator {
    And,
    Until(Interval),
    Since(Interval),
}

impl Operator {
    /// The node of the operator over two nodes.
    pub fn over(self, left: NodeId, right: NodeId) -> Core
        ensures { result ≡ node_over self left right }
    {
        match self {
            Operator::And => Core::And(left, right),
            Operator::Until(interval) => Core::Until(interval, left, right),
            Operator::Since(interval) => Core::Since(interval, left, right),
        }
    }
}

/// A proposition of a host.
#[derive(Drop, PartialEq, Eq, Hash)]
pub struct Proposition {
    pub host: Name,
    pub name: Name,
}
