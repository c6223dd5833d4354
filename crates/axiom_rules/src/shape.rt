//! What the nodes of a formula are.

ghost use Rattle.std.specs.Prelude.{◌<◌, length, IfOk};
ghost use Rattle.axiom_rules.specs.Shapes.{AreShapes, IsShape};

use crate::proposition::{PropositionRows, rows_named};
use crate::reach::Reach;
use formula_arena::{Arena, Core, Direction, cores_are_cores};
use mt_model::{Log, Name, NodeId};
use std::alloc::{AllocError, Global};

/// A node, over the numbers of its children.
#[derive(Drop)]
pub enum Shape {
    True,
    /// A proposition of a host, with the rows that tell of it.
    Prop {
        host: Name,
        name: Name,
        rows: PropositionRows,
    },
    Not(u32),
    And(u32, u32),
    Reach(Reach),
}

// What a node is.
fn shape_of(alloc: Global, log: &Log, arena: &Arena, id: NodeId) -> Result<Shape, AllocError>
    requires { id < length arena.now }
    ensures { IfOk result (λ shape. IsShape log.now arena.now id shape) }
{
    // For the proof: the call says how many nodes an arena has at most.
    let _ = arena.len();
    cores_are_cores();
    match arena.node(id) {
        Core::True => Ok(Shape::True),
        Core::Prop(prop) => {
            let (host, name) = arena.prop(prop);
            Ok(Shape::Prop {
                host: host.copy(alloc)?,
                name: name.copy(alloc)?,
                rows: rows_named(alloc, log, host, name)?,
            })
        }
        Core::Not(f) => Ok(Shape::Not(f.get())),
        Core::And(f, g) => Ok(Shape::And(f.get(), g.get())),
        Core::Until(interval, f, g) => Ok(Shape::Reach(Reach {
            direction: Direction::Ahead,
            interval,
            left: f.get(),
            right: g.get(),
        })),
        Core::Since(interval, f, g) => Ok(Shape::Reach(Reach {
            direction: Direction::Behind,
            interval,
            left: f.get(),
            right: g.get(),
        })),
    }
}

/// What each node is.
pub fn shapes(alloc: Global, log: &Log, arena: &Arena) -> Result<Vec<Shape>, AllocError>
    ensures { IfOk result (λ shapes. AreShapes log.now arena.now shapes.items) }
{
    let mut list = Vec::new(alloc);
    for k in 0..arena.len() {
        list.push(shape_of(alloc, log, arena, NodeId::new(k))?)?;
    }
    Ok(list)
}
