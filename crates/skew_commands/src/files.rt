//! The tests that a command makes of its files, each of which gives what it found, or refuses it.

ghost use Rattle.std.specs.Prelude.{◌≡◌, ◌∷◌, [], ◌^◌, ◌<◌, ◌≤◌, true, None, Some, All, length, IfOk, OnOk, IsErrOf, IsSome, Ok};
ghost use Rattle.mt_model.specs.Form.{form_of};
ghost use Rattle.formula_arena.specs.Cores.{core_of};
ghost use Rattle.formula_arena.specs.Nodes.{nodes_of};
ghost use Rattle.formula_arena.specs.declared.arena.TheConstants.{MAX_NODES};
ghost use Rattle.mt_model.specs.Log.{IsWithin};
ghost use Rattle.mt_model.specs.State.{unknown_host};
ghost use Rattle.mt_model.specs.declared.limits.TheConstants.{MAX_TIME};
ghost use Rattle.mt_port.specs.Port.{Opens, Rose, file_of};
ghost use Rattle.mtl_parse.specs.FormulaOf.{FormulaOf};
ghost use Rattle.times_read.specs.TimesOf.{times_of};
ghost use Rattle.log_read.specs.LogOf.{log_of};
ghost use Rattle.skew_commands.specs.Stops.{NamesHost, NeverFailsToRead, RefusesFor, TellsFormulaFault, TellsLength, TellsLogFault, TellsTimesFault};

use crate::refusal::{Named, Refusal};
use crate::reply::Stop;
use formula_arena::{Arena, ArenaFault};
use log_read::{LogFault, read_log};
use mt_model::{Formula, Log, Times};
use mt_port::{ReadFault, Shelf, read_all};
use mtl_parse::{FormulaFault, parse_formula, place_of};
use std::alloc::Global;
use times_read::{TimesFault, read_times};
use witness_replay::Replayer;

/// Reads a file that a command names: refused as `named` where it has more bytes than the limit.
pub fn file<S: Shelf>(
    alloc: Global,
    shelf: &mut S,
    name: &str,
    limit: usize,
    named: Named,
) -> Result<Vec<u8>, Stop>
    requires { limit < 2 ^ 31 }
    ensures whole { IfOk result (λ bytes. S.tells shelf.old ≡ true → file_of (S.files shelf.old) name.now ≡ Some bytes.items) }
    ensures within { IfOk result (λ bytes. length bytes.items ≤ limit) }
    ensures refused { RefusesFor result (TellsLength named (S.tells shelf.old) (file_of (S.files shelf.old) name.now) limit) }
    ensures too_long { RefusesFor result (λ r. r ≡ Refusal.Length named) }
    ensures failed { IsErrOf result Stop.ReadFailed → Rose (S.faults shelf.old) (S.faults shelf.new) }
    ensures told { ¬ IsErrOf result Stop.ReadFailed → S.faults shelf.new ≡ S.faults shelf.old }
    ensures never { NeverFailsToRead (S.steady shelf.old) (S.tells shelf.old) (IsSome (file_of (S.files shelf.old) name.now)) result }
    ensures later { S.faults shelf.old ≤ S.faults shelf.new }
    ensures once { Opens (name.now ∷ []) (S.openings shelf.old) (S.openings shelf.new) }
    ensures steady { S.steady shelf.old → S.steady shelf.new }
    ensures files { S.files shelf.new ≡ S.files shelf.old }
    ensures telling { S.tells shelf.new ≡ S.tells shelf.old }
{
    match read_all(alloc, shelf, name, limit) {
        Ok(bytes) => Ok(bytes),
        Err(ReadFault::TooLong) => Err(Stop::Refused(Refusal::Length(named))),
        Err(ReadFault::Failed) => Err(Stop::ReadFailed),
        Err(ReadFault::Memory) => Err(Stop::NoMemory),
    }
}

/// The formula that a text is.
pub fn formula(alloc: Global, text: &[u8]) -> Result<Formula, Stop>
    requires { length text.now < 2 ^ 31 }
    ensures formula { IfOk result (λ f. FormulaOf text.now (Ok (form_of f))) }
    ensures reads_nothing { IsErrOf result Stop.ReadFailed → ⊥ }
    ensures refused { RefusesFor result (TellsFormulaFault text.now) }
{
    match parse_formula(alloc, text) {
        Ok(formula) => Ok(formula),
        Err(FormulaFault::Memory) => Err(Stop::NoMemory),
        Err(fault) => Err(Stop::Refused(Refusal::Formula(fault))),
    }
}

/// The log that a file is.
pub fn log(alloc: Global, file: &[u8]) -> Result<Log, Stop>
    requires { length file.now < 2 ^ 31 }
    ensures log { IfOk result (λ log. log_of file.now ≡ Ok log) }
    ensures reads_nothing { IsErrOf result Stop.ReadFailed → ⊥ }
    ensures refused { RefusesFor result (TellsLogFault (log_of file.now)) }
{
    match read_log(alloc, file) {
        Ok(log) => Ok(log),
        Err(LogFault::Memory) => Err(Stop::NoMemory),
        Err(fault) => Err(Stop::Refused(Refusal::Log(fault))),
    }
}

/// That the hosts of a formula, whose text this is, are in a log.
pub fn known_hosts(text: &[u8], formula: &Formula, log: &Log) -> Result<(), Stop>
    requires short { length text.now < 2 ^ 31 }
    requires reads { FormulaOf text.now (Ok (form_of formula.now)) }
    ensures known { OnOk result (unknown_host log.now (form_of formula.now) ≡ None) }
    ensures reads_nothing { IsErrOf result Stop.ReadFailed → ⊥ }
    ensures refused { RefusesFor result (NamesHost text.now (unknown_host log.now (form_of formula.now))) }
{
    let Some(number) = formula.unknown_host(log) else {
        return Ok(());
    };
    match place_of(text, number) {
        Some(byte) => Err(Stop::Refused(Refusal::UnknownHost { byte })),
        None => unreachable!(),
    }
}

/// What judges timings of a log by a formula, whose hosts are in the log.
pub fn replayer(alloc: Global, log: &Log, formula: &Formula) -> Result<Replayer, Stop>
    requires { unknown_host log.now (form_of formula.now) ≡ None }
    ensures log { IfOk result (λ r. r.log ≡ log.now) }
    ensures core { IfOk result (λ r. r.core ≡ core_of (form_of formula.now)) }
    ensures few { OnOk result (length (nodes_of (form_of formula.now)) ≤ MAX_NODES) }
    ensures reads_nothing { IsErrOf result Stop.ReadFailed → ⊥ }
    ensures refused { RefusesFor result (λ r. (r ≡ Refusal.Nodes) × (MAX_NODES < length (nodes_of (form_of formula.now)))) }
{
    match Replayer::new(alloc, log, formula) {
        Ok(replayer) => Ok(replayer),
        Err(ArenaFault::TooManyNodes) => Err(Stop::Refused(Refusal::Nodes)),
        Err(ArenaFault::Memory) => Err(Stop::NoMemory),
    }
}

/// The times that a file writes, one for each row of a log.
pub fn timing(alloc: Global, file: &[u8], log: &Log) -> Result<Times, Stop>
    ensures times { IfOk result (λ t. times_of (length log.now.rows) file.now ≡ Ok t) }
    ensures range { IfOk result (λ t. All (IsWithin MAX_TIME) t) }
    ensures full { IfOk result (λ t. length t ≡ length log.now.rows) }
    ensures reads_nothing { IsErrOf result Stop.ReadFailed → ⊥ }
    ensures refused { RefusesFor result (TellsTimesFault (times_of (length log.now.rows) file.now)) }
{
    match read_times(alloc, file, log.rows().len()) {
        Ok(times) => Ok(times),
        Err(TimesFault::Number { line }) => Err(Stop::Refused(Refusal::TimesNumber { line })),
        Err(TimesFault::Count { line }) => Err(Stop::Refused(Refusal::TimesCount { line })),
        Err(TimesFault::Memory) => Err(Stop::NoMemory),
    }
}

/// That the distinct nodes of a formula are few enough.
pub fn few_nodes(alloc: Global, formula: &Formula) -> Result<(), Stop>
    ensures few { OnOk result (length (nodes_of (form_of formula.now)) ≤ MAX_NODES) }
    ensures reads_nothing { IsErrOf result Stop.ReadFailed → ⊥ }
    ensures refused { RefusesFor result (λ r. (r ≡ Refusal.Nodes) × (MAX_NODES < length (nodes_of (form_of formula.now)))) }
{
    let mut arena = Arena::new(alloc);
    match arena.intern(formula) {
        Ok(_) => Ok(()),
        Err(ArenaFault::TooManyNodes) => Err(Stop::Refused(Refusal::Nodes)),
        Err(ArenaFault::Memory) => Err(Stop::NoMemory),
    }
}
