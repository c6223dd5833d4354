//! The bounds of a log as a system of difference constraints.

ghost use Rattle.std.specs.Prelude.{IfOk};
ghost use Rattle.skew_bounds.specs.System.{IsSystemOf};

use crate::bound_list::bounds;
use crate::consistency::edges_of;
use mt_model::{BoundList, Log, RowReadings, log_is_valid};
use neg_cycle::EdgeList;
use std::alloc::{AllocError, Global};

/// The bounds of a log, the edge of each at the same place, and what its rows read of clocks.
#[derive(Drop)]
pub struct BoundSystem {
    pub bounds: BoundList,
    pub edges: EdgeList,
    /// The reading of each row, where there is one.
    pub readings: RowReadings,
}

/// The bounds of a log with their edges, and the readings of its rows. An error is want of memory.
pub fn system_of(alloc: Global, log: &Log) -> Result<BoundSystem, AllocError>
    ensures system { IfOk result (IsSystemOf log.now) }
{
    log_is_valid(log);
    let bounds = bounds(alloc, log)?;
    let edges = edges_of(alloc, log, bounds.as_slice())?;
    let readings = log.readings_by_row(alloc)?;
    Ok(BoundSystem {
        bounds,
        edges,
        readings,
    })
}
