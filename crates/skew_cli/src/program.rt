//! What the program does for its words: the command that they are is done, and its answer written.

ghost use Rattle.std.specs.Prelude.{◌≡◌, ◌⊎◌, ◌++◌, ◌≤◌, true, None, IfOk, IfErr, IsErrOf, codes};
ghost use Rattle.mt_port.specs.Port.{Rose};
ghost use Rattle.skew_words.specs.Called.{HasFewConflicts, HasSmallWidening, HasTwoEvents, command_in, words_of};
ghost use Rattle.skew_answers.specs.Statuses.{IsAnswer, IsRefusal, IsVerdict};
ghost use Rattle.skew_answers.specs.Texts.{line};
ghost use Rattle.skew_words.specs.Words.{command_of};
ghost use Rattle.skew_commands.specs.Openings.{OpensAtMost};
ghost use Rattle.skew_cli.specs.Outcome.{AddsRefusal, CommandOutcome, Completes, Ends, EndsFor, HasOutcomeFor, HasPossible, HoldsFiles, HoldsNamed, IsPossible, IsPossibleOf, NeverReadFailed, OpensFilesInTurn, OpensNamed, OpensNamedInTurn, WhereTold, files_named};
ghost use Rattle.skew_commands.specs.Refusals.{IsRefusalOf};
ghost use Rattle.skew_commands.specs.Stops.{Gives, HasReason, NeverFailsToRead};

use crate::audit::audit;
use crate::check::check;
use crate::demo::demo;
use crate::json::json;
use crate::trim::trim;
use mt_port::{Failed, Shelf, Sink, write_all};
use skew_answers::Status;
use skew_best::{Distance, Widening, span, tolerance};
use skew_commands::{Reply, Stop, order, replay, times};
use skew_words::{Call, call_of, spoken_of};
use std::alloc::Global;

// Writes a text, and answers its status where that goes well.
fn finish<K: Sink>(out: &mut K, text: &[u8], status: Status) -> Status
    requires { IsAnswer status }
    ensures ends { K.tells out.old ≡ true → Ends (λ b s. (b ≡ text.now) × (s ≡ status)) (K.bytes out.old) (K.bytes out.new) result }
    ensures status { (result ≡ status) ⊎ (result ≡ Status.WriteFailed) }
    ensures failed { result ≡ Status.WriteFailed → Rose (K.faults out.old) (K.faults out.new) }
    ensures told { ¬ (result ≡ Status.WriteFailed) → K.faults out.new ≡ K.faults out.old }
    ensures later { K.faults out.old ≤ K.faults out.new }
{
    match write_all(out, text) {
        Ok(()) => status,
        Err(Failed) => Status::WriteFailed,
    }
}

// What a command gives, before anything is written.
fn work<S: Shelf>(alloc: Global, shelf: &mut S, call: Call<'_>) -> Result<Reply, Stop>
    requires conflicts { HasFewConflicts call }
    requires widening { HasSmallWidening call }
    requires events { HasTwoEvents call }
    ensures outcome { S.tells shelf.old ≡ true → Gives (CommandOutcome (command_in call.entry) (S.files shelf.old)) result }
    ensures possible { Gives (IsPossibleOf (command_in call.entry)) result }
    ensures verdict { IfOk result (λ r. IsVerdict r.status) }
    ensures failed { IsErrOf result Stop.ReadFailed → Rose (S.faults shelf.old) (S.faults shelf.new) }
    ensures told { ¬ IsErrOf result Stop.ReadFailed → S.faults shelf.new ≡ S.faults shelf.old }
    ensures never { NeverFailsToRead (S.steady shelf.old) (S.tells shelf.old) (HoldsFiles (S.files shelf.old) (command_in call.entry)) result }
    ensures later { S.faults shelf.old ≤ S.faults shelf.new }
    ensures openings { OpensAtMost (files_named (command_in call.entry)) (S.openings shelf.old) (S.openings shelf.new) }
    ensures in_turn { WhereTold S.tells S.files S.openings shelf.old shelf.new (λ files. OpensFilesInTurn files (command_in call.entry)) }
{
    match call {
        Call::Times { log } => times(alloc, shelf, log),
        Call::Replay {
            formula,
            log,
            times,
        } => replay(alloc, shelf, formula, log, times),
        Call::Order { log } => order(alloc, shelf, log),
        Call::Check {
            conflicts,
            formula,
            log,
        } => check(alloc, shelf, conflicts, formula, log),
        Call::Audit {
            conflicts,
            formula,
            log,
            report,
        } => audit(alloc, shelf, conflicts, formula, log, report),
        Call::Trim { report } => trim(alloc, shelf, report),
        Call::Json { json: name } => json(alloc, shelf, name),
        Call::Tolerance {
            conflicts,
            value,
            max,
            formula,
            log,
        } => {
            let widening = Widening {
                conflicts,
                value,
                max,
            };
            tolerance(alloc, shelf, widening, formula, log)
        }
        Call::Span {
            conflicts,
            value,
            from,
            to,
            formula,
            log,
        } => {
            let distance = Distance {
                conflicts,
                value,
                from,
                to,
            };
            span(alloc, shelf, distance, formula, log)
        }
        Call::Demo { seed } => demo(alloc, seed),
    }
}

// The same, where a refusal is a reply too.
fn reply<S: Shelf>(alloc: Global, shelf: &mut S, call: Call<'_>) -> Result<Reply, Stop>
    requires conflicts { HasFewConflicts call }
    requires widening { HasSmallWidening call }
    requires events { HasTwoEvents call }
    ensures outcome { IfOk result (λ r. S.tells shelf.old ≡ true → CommandOutcome (command_in call.entry) (S.files shelf.old) r.text.items r.status) }
    ensures possible { IfOk result (λ r. IsPossibleOf (command_in call.entry) r.text.items r.status) }
    ensures answer { IfOk result (λ r. IsAnswer r.status) }
    ensures command { IfOk result (λ r. r.status ≡ Status.Words → ⊥) }
    ensures refused { IfOk result (λ r. IsRefusal r.status → IsRefusalOf r.status r.text.items) }
    ensures stop { IfErr result (λ s. HasReason s (λ r. ⊥)) }
    ensures failed { IsErrOf result Stop.ReadFailed → Rose (S.faults shelf.old) (S.faults shelf.new) }
    ensures told { ¬ IsErrOf result Stop.ReadFailed → S.faults shelf.new ≡ S.faults shelf.old }
    ensures never { NeverFailsToRead (S.steady shelf.old) (S.tells shelf.old) (HoldsFiles (S.files shelf.old) (command_in call.entry)) result }
    ensures later { S.faults shelf.old ≤ S.faults shelf.new }
    ensures openings { OpensAtMost (files_named (command_in call.entry)) (S.openings shelf.old) (S.openings shelf.new) }
    ensures in_turn { WhereTold S.tells S.files S.openings shelf.old shelf.new (λ files. OpensFilesInTurn files (command_in call.entry)) }
{
    match work(alloc, shelf, call) {
        Err(Stop::Refused(refusal)) => Ok(refusal.reply(alloc)?),
        result => result,
    }
}

/// All that the program does for its words: reads the files that they name, and writes the answer.
///
/// With want of memory and with a failed read nothing is written; where writing fails, what was
/// written is the beginning of an answer.
pub fn run<S: Shelf, K: Sink>(
    alloc: Global,
    words: &Vec<String>,
    shelf: &mut S,
    out: &mut K,
) -> Status
    // Where files and bytes are told, an answer is what the words and files give, for any files
    // that agree with those that the shelf holds.
    ensures outcome { S.tells shelf.old ≡ true → EndsFor (words_of words.now.items) (S.files shelf.old) K.tells K.bytes out.old out.new result }
    ensures silent { K.tells out.old ≡ true → (result ≡ Status.NoMemory) ⊎ (result ≡ Status.ReadFailed) → K.bytes out.new ≡ K.bytes out.old }

    // The status of an answer is one that the words and files give, whatever the sink tells.
    ensures status { S.tells shelf.old ≡ true → IsAnswer result → HasOutcomeFor (words_of words.now.items) (S.files shelf.old) result }

    // Whatever the shelf tells, what is written with an answer is what the words give of some files, and
    // where writing failed it is the beginning of that. Whatever is told, the status is one of those.
    ensures possible { K.tells out.old ≡ true → Ends (IsPossible (words_of words.now.items)) (K.bytes out.old) (K.bytes out.new) result }
    ensures possible_status { IsAnswer result → HasPossible (words_of words.now.items) result }

    // The words are refused exactly where they are no command, whatever the shelf tells.
    ensures words { result ≡ Status.Words → command_of (words_of words.now.items) ≡ None }
    ensures no_command { command_of (words_of words.now.items) ≡ None → (result ≡ Status.Words) ⊎ (result ≡ Status.WriteFailed) }
    ensures refusal { result ≡ Status.Words → K.tells out.old ≡ true → K.bytes out.new ≡ K.bytes out.old ++ line (codes "refused words") }

    // What is refused for what a file holds has its one line written, whatever the shelf tells.
    ensures refused { K.tells out.old ≡ true → IsRefusal result → AddsRefusal result (K.bytes out.old) (K.bytes out.new) }

    // A failure of a device is answered only where its count rose, and where it rose it is answered.
    ensures read { result ≡ Status.ReadFailed → Rose (S.faults shelf.old) (S.faults shelf.new) }
    ensures read_told { ¬ (result ≡ Status.ReadFailed) → S.faults shelf.new ≡ S.faults shelf.old }
    ensures never { NeverReadFailed (S.steady shelf.old) (S.tells shelf.old) (HoldsNamed (words_of words.now.items) (S.files shelf.old)) result }
    ensures write { result ≡ Status.WriteFailed → Rose (K.faults out.old) (K.faults out.new) }
    ensures write_told { ¬ (result ≡ Status.WriteFailed) → K.faults out.new ≡ K.faults out.old }

    // As far as the shelf tells its openings: at most the files that the words name are opened, in their order, each once.
    ensures openings { OpensNamed (words_of words.now.items) (S.openings shelf.old) (S.openings shelf.new) }

    // More than the formula's file is opened only where that passes its tests, and a third file only where all tests before
    // it are passed: so where the shelf tells all its openings, a failed read is never answered where a test of an earlier
    // file fails.
    ensures in_turn { WhereTold S.tells S.files S.openings shelf.old shelf.new (OpensNamedInTurn (words_of words.now.items)) }

    // Where no device failed, the answer is there, or memory ran out.
    ensures complete { Completes (words_of words.now.items) S.tells S.files S.steady S.faults shelf.old shelf.new K.faults out.old out.new result }
{
    let Some(spoken) = spoken_of(words) else {
        return finish(out, b"refused words\n", Status::Words);
    };
    let Ok(list) = spoken.normal_list(alloc) else {
        return Status::NoMemory;
    };
    let Ok(call) = call_of(alloc, spoken.verb(), &list) else {
        return Status::NoMemory;
    };
    match reply(alloc, shelf, call) {
        Ok(reply) => finish(out, &reply.text, reply.status),
        Err(Stop::Refused(_)) => unreachable!(),
        Err(Stop::NoMemory) => Status::NoMemory,
        Err(Stop::ReadFailed) => Status::ReadFailed,
    }
}
