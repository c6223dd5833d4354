//! What `order` answers: the vector clocks of a log's events, or the cycle that they are in.

ghost use Rattle.std.specs.Prelude.{◌≡◌, ◌∷◌, [], ◌≤◌, true, IfOk, IsErrOf, IsSome};
ghost use Rattle.mt_port.specs.Port.{Opens, Rose, file_of};
ghost use Rattle.skew_answers.specs.Statuses.{IsVerdict};
ghost use Rattle.skew_commands.specs.OrderOutcome.{OrderOfLog, OrderOutcome};
ghost use Rattle.skew_commands.specs.Possible.{OfSomeFile};
ghost use Rattle.skew_commands.specs.Stops.{Gives, NeverFailsToRead};

use crate::files;
use crate::limits::LOG_LIMIT;
use crate::refusal::Named;
use crate::reply::{Reply, Stop};
use happened_before::{Order, OrderFault};
use mt_model::Log;
use mt_port::Shelf;
use skew_answers::{Status, written_clocks, written_cycle};
use std::alloc::{AllocError, Global};

// What `order` answers for a log.
fn order_of_log(alloc: Global, log: &Log) -> Result<Reply, AllocError>
    ensures outcome { IfOk result (λ r. OrderOfLog log.now r.text.items r.status) }
    ensures verdict { IfOk result (λ r. IsVerdict r.status) }
{
    match Order::build(alloc, log) {
        Ok(order) => Ok(Reply {
            text: written_clocks(alloc, log, &order)?.into_bytes(),
            status: Status::Zero,
        }),
        Err(OrderFault::Cycle(events)) => Ok(Reply {
            text: written_cycle(alloc, events.as_slice())?.into_bytes(),
            status: Status::Inconsistent,
        }),
        Err(OrderFault::Memory) => Err(AllocError),
    }
}

/// What `order` answers for the log of a name.
pub fn order<S: Shelf>(alloc: Global, shelf: &mut S, log: &str) -> Result<Reply, Stop>
    ensures outcome { S.tells shelf.old ≡ true → Gives (OrderOutcome (S.files shelf.old) log.now) result }
    ensures possible { Gives (OfSomeFile OrderOutcome) result }
    ensures verdict { IfOk result (λ r. IsVerdict r.status) }
    ensures failed { IsErrOf result Stop.ReadFailed → Rose (S.faults shelf.old) (S.faults shelf.new) }
    ensures told { ¬ IsErrOf result Stop.ReadFailed → S.faults shelf.new ≡ S.faults shelf.old }
    ensures never { NeverFailsToRead (S.steady shelf.old) (S.tells shelf.old) (IsSome (file_of (S.files shelf.old) log.now)) result }
    ensures later { S.faults shelf.old ≤ S.faults shelf.new }
    ensures once { Opens (log.now ∷ []) (S.openings shelf.old) (S.openings shelf.new) }
{
    let file = files::file(alloc, shelf, log, LOG_LIMIT, Named::Log)?;
    let log = files::log(alloc, &file)?;
    Ok(order_of_log(alloc, &log)?)
}
