//! What `times` answers: an admissible timing of a log, or bounds of it in conflict.

ghost use Rattle.std.specs.Prelude.{◌≡◌, ◌∷◌, [], ◌<◌, ◌≤◌, true, IfOk, IsErrOf, IsSome};
ghost use Rattle.mt_port.specs.Port.{Opens, Rose, file_of};
ghost use Rattle.skew_answers.specs.Statuses.{IsVerdict};
ghost use Rattle.skew_commands.specs.Possible.{OfSomeFile};
ghost use Rattle.skew_commands.specs.Stops.{Gives, NeverFailsToRead};
ghost use Rattle.skew_commands.specs.TimesOutcome.{TimesOfLog, TimesOutcome};

use crate::files;
use crate::limits::LOG_LIMIT;
use crate::refusal::Named;
use crate::reply::{Reply, Stop};
use mt_model::{Log, conflict_excludes_timings};
use mt_port::Shelf;
use skew_answers::{Status, written_steps, written_times};
use skew_bounds::{Consistency, settle};
use std::alloc::{AllocError, Global};

// What `times` answers for a log.
fn times_of_log(alloc: Global, log: &Log) -> Result<Reply, AllocError>
    ensures outcome { IfOk result (λ r. TimesOfLog log.now r.text.items r.status) }
    ensures verdict { IfOk result (λ r. IsVerdict r.status) }
{
    conflict_excludes_timings();
    match settle(alloc, log)? {
        Consistency::Timing(times) => {
            let text = written_times(alloc, times.as_slice())?;
            Ok(Reply {
                text: text.into_bytes(),
                status: Status::Zero,
            })
        }
        Consistency::Conflict(steps) => {
            let text = written_steps(alloc, steps.as_slice())?;
            Ok(Reply {
                text: text.into_bytes(),
                status: Status::Inconsistent,
            })
        }
    }
}

/// What `times` answers for the log of a name.
pub fn times<S: Shelf>(alloc: Global, shelf: &mut S, log: &str) -> Result<Reply, Stop>
    ensures outcome { S.tells shelf.old ≡ true → Gives (TimesOutcome (S.files shelf.old) log.now) result }
    ensures possible { Gives (OfSomeFile TimesOutcome) result }
    ensures verdict { IfOk result (λ r. IsVerdict r.status) }
    ensures failed { IsErrOf result Stop.ReadFailed → Rose (S.faults shelf.old) (S.faults shelf.new) }
    ensures told { ¬ IsErrOf result Stop.ReadFailed → S.faults shelf.new ≡ S.faults shelf.old }
    ensures never { NeverFailsToRead (S.steady shelf.old) (S.tells shelf.old) (IsSome (file_of (S.files shelf.old) log.now)) result }
    ensures later { S.faults shelf.old ≤ S.faults shelf.new }
    ensures once { Opens (log.now ∷ []) (S.openings shelf.old) (S.openings shelf.new) }
{
    let file = files::file(alloc, shelf, log, LOG_LIMIT, Named::Log)?;
    let log = files::log(alloc, &file)?;
    Ok(times_of_log(alloc, &log)?)
}
