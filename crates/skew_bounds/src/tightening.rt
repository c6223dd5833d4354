//! The least and greatest differences of a log's rows over all its timings, or why there are none.

ghost use Rattle.std.specs.Prelude.{IfErr, IfOk, OnOk};
ghost use Rattle.mt_model.specs.Timing.{Admissible};
ghost use Rattle.skew_bounds.specs.Consistency.{IsConflict};
ghost use Rattle.skew_bounds.specs.System.{IsSystemOf};
ghost use Rattle.skew_bounds.specs.Tight.{IfCycle, IsConsistent, IsInconsistent, IsTight};

use crate::difference_table::table_of;
use crate::{BoundSystem, Consistency, Tight, settle_by, system_of};
use mt_model::{Log, Steps, conflict_excludes_timings};
use std::alloc::{AllocError, Global};

/// Why a log has no least and greatest differences, or want of memory.
#[derive(Drop)]
pub enum TightFault {
    /// No timing is admissible: bounds of the log whose edges form a closed walk of negative sum, in the
    /// order of the walk, which visits no node twice.
    Cycle(Steps),
    /// There is no memory for the table.
    Memory,
}

impl From<AllocError> for TightFault {
    ghost use Rattle.std.specs.Prelude.{◌≡◌};
    ghost use Rattle.skew_bounds.specs.declared.tightening.TightFault.TheVariants.{Memory};

    ghost from_gives = { λ _ f. f ≡ Memory };

    fn from(_: AllocError) -> Self {
        TightFault::Memory
    }
}

/// The least and the greatest difference of each two rows' true times, over all timings that a log
/// admits, each of which some admissible timing has. An error other than want of memory comes exactly
/// where no timing is admissible. The work is that of a search over all bounds for each row. The memory
/// grows with the differences that no walk by way of the zero moment gives, at most with the square of the rows.
pub fn tight(alloc: Global, log: &Log) -> Result<Tight, TightFault>
    ensures exact { IfOk result (IsTight log.now) }
    ensures consistent { OnOk result (IsConsistent log.now) }
    ensures cycle { IfErr result (λ fault. IfCycle fault (IsConflict log.now)) }
    ensures inconsistent { IfErr result (λ fault. IfCycle fault (λ _. IsInconsistent log.now)) }
{
    conflict_excludes_timings();
    let system = system_of(alloc, log)?;
    match settle_by(alloc, log, &system)? {
        Consistency::Timing(times) => Ok(tight_by(alloc, log, &system, times.as_slice())?),
        Consistency::Conflict(steps) => Err(TightFault::Cycle(steps)),
    }
}

/// The same where a timing is known that the log admits, from which the searches begin, and the bounds with their edges. An
/// error is want of memory.
pub fn tight_by(
    alloc: Global,
    log: &Log,
    system: &BoundSystem,
    times: &[i128],
) -> Result<Tight, AllocError>
    requires system { IsSystemOf log.now system.now }
    requires admissible { Admissible log.now times.now }
    ensures exact { IfOk result (IsTight log.now) }
{
    let table = table_of(alloc, log, system, times)?;
    Ok(Tight::new(table))
}
