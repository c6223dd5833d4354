//! Whether numbers meet an edge.

ghost use Rattle.std.specs.Prelude.{◌≡◌, ◌↔◌, length, All, IsTrue};
ghost use Rattle.neg_cycle.specs.Systems.{IsEdge, Meets};
ghost use Rattle.difference_graph.specs.Gaps.{IsNumber};
ghost use Rattle.difference_graph.specs.Repairs.{slack};

use crate::subtraction::difference;
use neg_cycle::Edge;

/// Whether the numbers meet an edge.
pub fn is_met(numbers: &[i128], edge: Edge) -> bool
    requires edge { IsEdge (length numbers.now) edge }
    requires numbers { All IsNumber numbers.now }
    ensures met { IsTrue result ↔ Meets numbers.now edge }
{
    slack_of(numbers, edge) >= 0
}

/// How far the numbers are from missing an edge.
pub fn slack_of(numbers: &[i128], edge: Edge) -> i128
    requires edge { IsEdge (length numbers.now) edge }
    requires numbers { All IsNumber numbers.now }
    ensures slack { result ≡ slack numbers.now edge }
{
    edge.bound - difference(numbers[edge.from as usize], numbers[edge.to as usize])
}
