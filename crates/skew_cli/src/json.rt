//! What `json` answers: the text of the log that a JSON file is.

ghost use Rattle.std.specs.Prelude.{◌≡◌, ◌∷◌, [], ◌^◌, ◌<◌, ◌≤◌, length, true, IfOk, IsErrOf, IsSome, Ok};
ghost use Rattle.json_log.specs.JsonLogOf.{json_log_of};
ghost use Rattle.mt_model.specs.Log.{IsPlain};
ghost use Rattle.mt_port.specs.Port.{Opens, Rose, file_of};
ghost use Rattle.skew_answers.specs.Statuses.{IsVerdict};
ghost use Rattle.skew_commands.specs.Possible.{OfSomeFile};
ghost use Rattle.skew_commands.specs.Stops.{Gives, NeverFailsToRead, RefusesFor};
ghost use Rattle.skew_cli.specs.JsonOutcome.{Converted, JsonOutcome, TellsJsonFault};

use crate::limits::JSON_LIMIT;
use json_log::{JsonFault, read_json};
use log_read::write_log;
use mt_model::Log;
use mt_port::Shelf;
use skew_answers::Status;
use skew_commands::{Named, Refusal, Reply, Stop, files};
use std::alloc::{AllocError, Global};

// The log that a JSON file is.
fn json_file(alloc: Global, file: &[u8]) -> Result<Log, Stop>
    requires { length file.now < 2 ^ 30 }
    ensures log { IfOk result (λ log. json_log_of file.now ≡ Ok log) }
    ensures plain { IfOk result IsPlain }
    ensures reads_nothing { IsErrOf result Stop.ReadFailed → ⊥ }
    ensures refused { RefusesFor result (TellsJsonFault (json_log_of file.now)) }
{
    match read_json(alloc, file) {
        Ok(log) => Ok(log),
        Err(JsonFault::Syntax) => Err(Stop::Refused(Refusal::JsonSyntax)),
        Err(JsonFault::Shape) => Err(Stop::Refused(Refusal::JsonShape)),
        Err(JsonFault::Log(fault)) => Err(Stop::Refused(Refusal::Log(fault))),
        Err(JsonFault::Memory) => Err(Stop::NoMemory),
    }
}

// A log's text as a reply.
fn converted(alloc: Global, log: &Log) -> Result<Reply, AllocError>
    requires { IsPlain log.now }
    ensures outcome { IfOk result (λ r. Converted log.now r.text.items r.status) }
    ensures verdict { IfOk result (λ r. IsVerdict r.status) }
{
    Ok(Reply {
        text: write_log(alloc, log)?,
        status: Status::Zero,
    })
}

/// What `json` answers for the JSON file of a name.
pub fn json<S: Shelf>(alloc: Global, shelf: &mut S, name: &str) -> Result<Reply, Stop>
    ensures outcome { S.tells shelf.old ≡ true → Gives (JsonOutcome (S.files shelf.old) name.now) result }
    ensures possible { Gives (OfSomeFile JsonOutcome) result }
    ensures verdict { IfOk result (λ r. IsVerdict r.status) }
    ensures failed { IsErrOf result Stop.ReadFailed → Rose (S.faults shelf.old) (S.faults shelf.new) }
    ensures told { ¬ IsErrOf result Stop.ReadFailed → S.faults shelf.new ≡ S.faults shelf.old }
    ensures never { NeverFailsToRead (S.steady shelf.old) (S.tells shelf.old) (IsSome (file_of (S.files shelf.old) name.now)) result }
    ensures later { S.faults shelf.old ≤ S.faults shelf.new }
    ensures once { Opens (name.now ∷ []) (S.openings shelf.old) (S.openings shelf.new) }
{
    let file = files::file(alloc, shelf, name, JSON_LIMIT, Named::Json)?;
    let log = json_file(alloc, &file)?;
    Ok(converted(alloc, &log)?)
}
