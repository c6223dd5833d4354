//! What `replay` answers: the truth of a formula on one timing of a log.

ghost use Rattle.std.specs.Prelude.{◌≡◌, ◌∷◌, [], ◌^◌, ◌<◌, ◌≤◌, true, length, All, IfOk, IsErrOf, IsSome, Ok};
ghost use Rattle.mt_model.specs.Form.{form_of};
ghost use Rattle.mt_model.specs.Log.{IsWithin};
ghost use Rattle.mt_model.specs.declared.limits.TheConstants.{MAX_TIME};
ghost use Rattle.mt_port.specs.Port.{Opens, Rose, file_of};
ghost use Rattle.mtl_parse.specs.FormulaOf.{FormulaOf};
ghost use Rattle.skew_answers.specs.Statuses.{IsVerdict};
ghost use Rattle.skew_answers.specs.Texts.{line};
ghost use Rattle.skew_commands.specs.Openings.{OpensAtMost, OpensInTurn, OpensMoreOnly, PassesHosts};
ghost use Rattle.skew_commands.specs.Possible.{OfSomeThird};
ghost use Rattle.skew_commands.specs.Reads.{HoldsAfter, HoldsThree};
ghost use Rattle.skew_commands.specs.ReplayOutcome.{OfCore, ReplayOfFile, ReplayOfQuestion, ReplayOfTimes, ReplayOutcome, value_status, value_text};
ghost use Rattle.skew_commands.specs.Stops.{Gives, NeverFailsToRead};
ghost use Rattle.skew_commands.specs.Tests.{OnTimes};
ghost use Rattle.skew_commands.specs.Untold.{GivesForSome};

use crate::files;
use crate::formula_and_log::{Question, read_question};
use crate::limits::TIMES_LIMIT;
use crate::refusal::Named;
use crate::reply::{Reply, Stop};
use mt_model::Log;
use mt_port::Shelf;
use skew_answers::{Status, written_bound};
use std::alloc::{AllocError, Global};
use witness_replay::Replayer;

// A truth value as a reply.
fn value_reply(alloc: Global, value: bool) -> Result<Reply, AllocError>
    ensures text { IfOk result (λ r. r.text.items ≡ line (value_text value)) }
    ensures status { IfOk result (λ r. r.status ≡ value_status value) }
    ensures verdict { IfOk result (λ r. IsVerdict r.status) }
{
    if value {
        Ok(Reply {
            text: String::from_str(alloc, "true\n")?.into_bytes(),
            status: Status::Zero,
        })
    } else {
        Ok(Reply {
            text: String::from_str(alloc, "false\n")?.into_bytes(),
            status: Status::One,
        })
    }
}

// What `replay` answers for a timing, once the formula and the log are known.
fn replay_of_times(
    alloc: Global,
    replayer: &mut Replayer,
    times: &[i128],
) -> Result<Reply, AllocError>
    requires range { All (IsWithin MAX_TIME) times.now }
    requires count { length times.now ≡ length replayer.old.log.rows }
    ensures outcome { IfOk result (λ r. OfCore replayer.old.core (λ f. ReplayOfTimes replayer.old.log f times.now r.text.items r.status)) }
    ensures verdict { IfOk result (λ r. IsVerdict r.status) }
{
    match replayer.broken(times) {
        Some(bound) => Ok(Reply {
            text: written_bound(alloc, bound)?.into_bytes(),
            status: Status::NotAdmissible,
        }),
        None => value_reply(alloc, replayer.truth(times)),
    }
}

// What it answers for the bytes of a file of times.
fn replay_of_bytes(
    alloc: Global,
    replayer: &mut Replayer,
    log: &Log,
    bytes: &[u8],
) -> Result<Reply, Stop>
    requires { replayer.old.log ≡ log.now }
    ensures outcome { OfCore replayer.old.core (λ f. Gives (OnTimes bytes.now log.now (ReplayOfTimes log.now f)) result) }
    ensures verdict { IfOk result (λ r. IsVerdict r.status) }
    ensures reads_nothing { IsErrOf result Stop.ReadFailed → ⊥ }
{
    let timing = files::timing(alloc, bytes, log)?;
    Ok(replay_of_times(alloc, replayer, timing.as_slice())?)
}

// What it answers for the file of times of a name.
fn replay_of_file<S: Shelf>(
    alloc: Global,
    shelf: &mut S,
    replayer: &mut Replayer,
    log: &Log,
    times: &str,
) -> Result<Reply, Stop>
    requires { replayer.old.log ≡ log.now }
    ensures outcome { S.tells shelf.old ≡ true → OfCore replayer.old.core (λ f. Gives (ReplayOfFile (S.files shelf.old) times.now log.now f) result) }
    ensures possible { OfCore replayer.old.core (λ f. GivesForSome (λ files name. ReplayOfFile files name log.now f) result) }
    ensures verdict { IfOk result (λ r. IsVerdict r.status) }
    ensures failed { IsErrOf result Stop.ReadFailed → Rose (S.faults shelf.old) (S.faults shelf.new) }
    ensures told { ¬ IsErrOf result Stop.ReadFailed → S.faults shelf.new ≡ S.faults shelf.old }
    ensures never { NeverFailsToRead (S.steady shelf.old) (S.tells shelf.old) (IsSome (file_of (S.files shelf.old) times.now)) result }
    ensures later { S.faults shelf.old ≤ S.faults shelf.new }
    ensures once { Opens (times.now ∷ []) (S.openings shelf.old) (S.openings shelf.new) }
{
    let file = files::file(alloc, shelf, times, TIMES_LIMIT, Named::Times)?;
    replay_of_bytes(alloc, replayer, log, &file)
}

// What it answers for a formula and a log, and the file of times of a name.
fn replay_of_question<S: Shelf>(
    alloc: Global,
    shelf: &mut S,
    question: &Question,
    times: &str,
) -> Result<Reply, Stop>
    requires short { length question.now.text.items < 2 ^ 31 }
    requires reads { FormulaOf question.now.text.items (Ok (form_of question.now.formula)) }
    ensures outcome { S.tells shelf.old ≡ true → Gives (ReplayOfQuestion (S.files shelf.old) times.now question.now) result }
    ensures possible { GivesForSome (λ files name. ReplayOfQuestion files name question.now) result }
    ensures verdict { IfOk result (λ r. IsVerdict r.status) }
    ensures failed { IsErrOf result Stop.ReadFailed → Rose (S.faults shelf.old) (S.faults shelf.new) }
    ensures told { ¬ IsErrOf result Stop.ReadFailed → S.faults shelf.new ≡ S.faults shelf.old }
    ensures never { NeverFailsToRead (S.steady shelf.old) (S.tells shelf.old) (HoldsAfter question.now (S.files shelf.old) times.now) result }
    ensures later { S.faults shelf.old ≤ S.faults shelf.new }
    ensures openings { OpensAtMost (times.now ∷ []) (S.openings shelf.old) (S.openings shelf.new) }
    ensures in_turn { OpensMoreOnly [] (PassesHosts (form_of question.now.formula) question.now.log) (S.openings shelf.old) (S.openings shelf.new) }
{
    files::known_hosts(&question.text, &question.formula, &question.log)?;
    let mut replayer = files::replayer(alloc, &question.log, &question.formula)?;
    replay_of_file(alloc, shelf, &mut replayer, &question.log, times)
}

/// What `replay` answers for the formula, the log and the file of times of these names.
pub fn replay<S: Shelf>(
    alloc: Global,
    shelf: &mut S,
    formula: &str,
    log: &str,
    times: &str,
) -> Result<Reply, Stop>
    ensures outcome { S.tells shelf.old ≡ true → Gives (ReplayOutcome (S.files shelf.old) formula.now log.now times.now) result }
    ensures possible { Gives (OfSomeThird ReplayOutcome) result }
    ensures verdict { IfOk result (λ r. IsVerdict r.status) }
    ensures failed { IsErrOf result Stop.ReadFailed → Rose (S.faults shelf.old) (S.faults shelf.new) }
    ensures told { ¬ IsErrOf result Stop.ReadFailed → S.faults shelf.new ≡ S.faults shelf.old }
    ensures never { NeverFailsToRead (S.steady shelf.old) (S.tells shelf.old) (HoldsThree (S.files shelf.old) formula.now log.now times.now) result }
    ensures later { S.faults shelf.old ≤ S.faults shelf.new }
    ensures openings { OpensAtMost (formula.now ∷ log.now ∷ times.now ∷ []) (S.openings shelf.old) (S.openings shelf.new) }
    ensures in_turn { S.tells shelf.old ≡ true → OpensInTurn (S.files shelf.old) formula.now log.now (S.openings shelf.old) (S.openings shelf.new) }
{
    let question = read_question(alloc, shelf, formula, log)?;
    replay_of_question(alloc, shelf, &question, times)
}
