//! The log that the bytes of a JSON file are.

ghost use Rattle.std.specs.Prelude.{◌≡◌, ◌⊎◌, ◌^◌, ◌<◌, length, MatchResult, Ok, Err, IfOk, IsErrOf};
ghost use Rattle.mt_model.specs.Log.{IsPlain};
ghost use Rattle.json_log.specs.JsonLogOf.{json_log_of, json_records};
ghost use Rattle.log_read.specs.declared.fault.LogFault.TheVariants.{Memory as LogMemory};

use crate::fault::JsonFault;
use crate::records::records_of;
use log_read::{LogFault, RecordList, read_records};
use mt_model::Log;
use serde_json::Value;
use std::alloc::Global;

// The records that the bytes of a JSON file stand for.
fn records(alloc: Global, bytes: &[u8]) -> Result<RecordList, JsonFault>
    requires { length bytes.now < 2 ^ 30 }
    ensures records { MatchResult result (λ rs. json_records bytes.now ≡ Ok rs) (λ f. (f ≡ JsonFault.Memory) ⊎ (json_records bytes.now ≡ Err f)) }
    ensures few { IfOk result (λ rs. length rs < 2 ^ 31) }
    ensures own { IsErrOf result (JsonFault.Log LogMemory) → ⊥ }
{
    match Value::from_slice(alloc, bytes) {
        Ok(value) => records_of(alloc, &value),
        Err(error) => if error.is_memory() {
            Err(JsonFault::Memory)
        } else {
            Err(JsonFault::Syntax)
        },
    }
}

/// The log that the bytes of a JSON file are.
///
/// The file is one JSON value in UTF-8, as `serde_json` reads it: an object with the keys `hosts` and
/// `events` and no other, both of them arrays. An entry of `hosts` is an object of a `name`, a `skew`
/// and a `gap`, and perhaps a `latency`, an array of a least delay and a greatest one or `null`. An entry
/// of `events` is an object of a `kind`, a `host`, a `time` and a `name`, the kind being neither `host` nor
/// `latency`; or, for the kind `resync`, of a `kind`, a `host`, a `skew` and a `gap`, for the kind `clock`, of
/// a `kind`, a `host`, a `clock` and an `error`, and for the kind `bound`, of a `kind`, a `later` row, an
/// `earlier` one and `most`, how long the later row comes at most after the earlier one. Hosts, names, clocks
/// and kinds are strings, and all else whole numbers, those of rows from 0 and the others in the log's one unit
/// of time.
///
/// The log is that of the records that these entries stand for, of version 3 where some event is of the
/// kind `clock` or `bound` and else of version 2. A fault of the log is that of these records: record 1 is
/// the header, then come for each host its own record and that of its latency, and then one for each event.
pub fn read_json(alloc: Global, bytes: &[u8]) -> Result<Log, JsonFault>
    requires { length bytes.now < 2 ^ 30 }
    ensures answer { MatchResult result (λ log. json_log_of bytes.now ≡ Ok log) (λ f. (f ≡ JsonFault.Memory) ⊎ (json_log_of bytes.now ≡ Err f)) }
    ensures own_memory { IsErrOf result (JsonFault.Log LogMemory) → ⊥ }
    ensures plain { IfOk result IsPlain }
{
    let records = records(alloc, bytes)?;
    match read_records(alloc, &records) {
        Ok(log) => Ok(log),
        Err(LogFault::Memory) => Err(JsonFault::Memory),
        Err(fault) => Err(JsonFault::Log(fault)),
    }
}
