//! The difference of two numbers of nodes.

ghost use Rattle.std.specs.Prelude.{◌≡◌, ◌-ℤ◌};
ghost use Rattle.difference_graph.specs.Gaps.{IsNumber};

/// The first number less the second.
pub fn difference(x: i128, y: i128) -> i128
    requires first { IsNumber x }
    requires second { IsNumber y }
    ensures difference { result ≡ x -ℤ y }
{
    x - y
}
