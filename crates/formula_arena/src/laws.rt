//! What holds of the core of a formula and of its nodes.

ghost use Rattle.std.specs.Prelude.{◌≡◌};
ghost use Rattle.formula_arena.specs.Laws.{CoresAreCores, NodesAreSubtrees, TruthOfCore};

use crate::MAX_NODES;

/// A formula and its core are true at the same positions of each timing.
pub fn truth_of_core()
    ensures { TruthOfCore }
{}

/// The core of a formula is a core tree, and trees are told apart exactly where they differ.
pub fn cores_are_cores()
    ensures { CoresAreCores }
{}

/// The nodes of a formula are the subtrees of its core, each once, each after its children, the core
/// itself last.
pub fn nodes_are_subtrees()
    ensures { NodesAreSubtrees }
{}

/// The number that limits arenas.
pub fn limit_is_a_number()
    ensures nodes { MAX_NODES ≡ 512 }
{}
