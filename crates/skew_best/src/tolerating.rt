//! The command `tolerance`.

ghost use Rattle.std.specs.Prelude.{◌≡◌, ◌∷◌, [], ◌^◌, ◌<◌, ◌≤◌, length, true, IfOk, IsErrOf, None, Ok, OnOk};
ghost use Rattle.mt_model.specs.Form.{form_of};
ghost use Rattle.mt_model.specs.State.{unknown_host};
ghost use Rattle.mt_port.specs.Port.{Rose};
ghost use Rattle.mtl_parse.specs.FormulaOf.{FormulaOf};
ghost use Rattle.least_skew.specs.Faults.{IsAsked};
ghost use Rattle.least_skew.specs.Least.{HasWrittenSkews, LeastRight, wide};
ghost use Rattle.least_skew.specs.Told.{IsInconsistentExactly, Tells};
ghost use Rattle.least_skew.specs.declared.widening.TheConstants.{MAX_WIDENING};
ghost use Rattle.skew_words.specs.declared.limits.TheConstants.{MAX_CONFLICTS};
ghost use Rattle.skew_answers.specs.Statuses.{IsVerdict};
ghost use Rattle.skew_commands.specs.Openings.{OpensAtMost, OpensLogInTurn};
ghost use Rattle.skew_commands.specs.Possible.{OfSomeQuestion};
ghost use Rattle.skew_commands.specs.Reads.{HoldsQuestion, NoThird};
ghost use Rattle.skew_commands.specs.Stops.{Gives, NeverFailsToRead, RefusesFor};
ghost use Rattle.skew_best.specs.SizeTests.{TellsLarge};
ghost use Rattle.skew_best.specs.Spelled.{IsSpelledTolerance};
ghost use Rattle.skew_best.specs.ToleranceOutcome.{ToleranceOfQuestion, ToleranceOutcomeOf, tolerance_status};
ghost use Rattle.skew_best.specs.ToleranceText.{tolerance_text};

use crate::tolerance_text::written_tolerance;
use least_skew::{Tolerance, ToleranceFault, least};
use log_read::logs_are_plain;
use mt_model::{Formula, Log, log_is_valid};
use mt_port::Shelf;
use skew_answers::Status;
use skew_commands::{Question, Refusal, Reply, Stop, files, read_question};
use std::alloc::{AllocError, Global};

/// A least widening that is looked for: by how much all skews of a log have to grow at least, in its unit of time, so that the
/// formula can have a value.
#[derive(Clone, Copy)]
pub struct Widening {
    /// How many conflicts each search may have, from 1 to 1,000,000.
    pub conflicts: u32,
    /// The value of the formula.
    pub value: bool,
    /// The greatest widening that is tried, at most 10^18.
    pub max: u64,
}

// The status of an answer.
fn status_of(answer: &Tolerance) -> Status
    ensures status { result ≡ tolerance_status answer.now }
    ensures verdict { IsVerdict result }
{
    match answer {
        Tolerance::Least { .. } => Status::Zero,
        Tolerance::Never { .. } => Status::One,
        Tolerance::Inconsistent(_) => Status::Inconsistent,
        Tolerance::Unknown { .. } => Status::Unknown,
    }
}

// An answer as a reply.
fn tolerance_reply(alloc: Global, value: bool, answer: Tolerance) -> Result<Reply, AllocError>
    requires { IsSpelledTolerance answer }
    ensures text { IfOk result (λ r. r.text.items ≡ tolerance_text value answer) }
    ensures status { IfOk result (λ r. r.status ≡ tolerance_status answer) }
    ensures verdict { IfOk result (λ r. IsVerdict r.status) }
{
    let status = status_of(&answer);
    let text = written_tolerance(alloc, value, answer)?;
    Ok(Reply { text, status })
}

// The least widening for a formula and a log, where the formula's hosts are in the log.
fn least_widening(
    alloc: Global,
    widening: Widening,
    log: &Log,
    formula: &Formula,
) -> Result<Tolerance, Stop>
    requires some { 1 ≤ widening.conflicts }
    requires most { widening.conflicts ≤ MAX_CONFLICTS }
    requires range { widening.max ≤ MAX_WIDENING }
    requires skews { HasWrittenSkews log.now }
    requires known { unknown_host log.now (form_of formula.now) ≡ None }
    ensures right { IfOk result (LeastRight log.now (form_of formula.now) widening.value widening.max widening.conflicts) }
    ensures tells { IfOk result (Tells log.now (form_of formula.now) widening.value widening.max widening.conflicts) }
    ensures inconsistent { IfOk result (IsInconsistentExactly log.now widening.max) }
    ensures asked { OnOk result (IsAsked log.now (form_of formula.now) widening.max) }
    ensures spelled { IfOk result IsSpelledTolerance }
    ensures read { IsErrOf result Stop.ReadFailed → ⊥ }
    ensures refused { RefusesFor result (TellsLarge (form_of formula.now) (wide widening.max log.now)) }
{
    let Widening {
        conflicts,
        value,
        max,
    } = widening;
    log_is_valid(log);
    match least(alloc, log, formula, value, max, conflicts) {
        Ok(answer) => Ok(answer),
        Err(ToleranceFault::UnknownHost { .. }) => unreachable!(),
        Err(ToleranceFault::TooManyNodes) => Err(Stop::Refused(Refusal::Nodes)),
        Err(ToleranceFault::TooLarge { size }) => Err(Stop::Refused(Refusal::Size { size })),
        Err(ToleranceFault::Memory) => Err(Stop::NoMemory),
    }
}

// What `tolerance` answers for a formula and a log.
fn tolerance_of_question(
    alloc: Global,
    widening: Widening,
    question: &Question,
) -> Result<Reply, Stop>
    requires some { 1 ≤ widening.conflicts }
    requires most { widening.conflicts ≤ MAX_CONFLICTS }
    requires range { widening.max ≤ MAX_WIDENING }
    requires skews { HasWrittenSkews question.now.log }
    requires short { length question.now.text.items < 2 ^ 31 }
    requires reads { FormulaOf question.now.text.items (Ok (form_of question.now.formula)) }
    ensures outcome { Gives (ToleranceOfQuestion widening question.now) result }
    ensures verdict { IfOk result (λ r. IsVerdict r.status) }
    ensures read { IsErrOf result Stop.ReadFailed → ⊥ }
{
    files::known_hosts(&question.text, &question.formula, &question.log)?;
    let answer = least_widening(alloc, widening, &question.log, &question.formula)?;
    Ok(tolerance_reply(alloc, widening.value, answer)?)
}

/// What `tolerance` answers for the formula and the log of these names: the least widening with which the formula can have the
/// value.
pub fn tolerance<S: Shelf>(
    alloc: Global,
    shelf: &mut S,
    widening: Widening,
    formula: &str,
    log: &str,
) -> Result<Reply, Stop>
    requires some { 1 ≤ widening.conflicts }
    requires most { widening.conflicts ≤ MAX_CONFLICTS }
    requires range { widening.max ≤ MAX_WIDENING }
    ensures outcome { S.tells shelf.old ≡ true → Gives (ToleranceOutcomeOf widening (S.files shelf.old) formula.now log.now) result }
    ensures possible { Gives (OfSomeQuestion (ToleranceOutcomeOf widening)) result }
    ensures verdict { IfOk result (λ r. IsVerdict r.status) }
    ensures failed { IsErrOf result Stop.ReadFailed → Rose (S.faults shelf.old) (S.faults shelf.new) }
    ensures told { ¬ IsErrOf result Stop.ReadFailed → S.faults shelf.new ≡ S.faults shelf.old }
    ensures never { NeverFailsToRead (S.steady shelf.old) (S.tells shelf.old) (HoldsQuestion (S.files shelf.old) formula.now log.now NoThird) result }
    ensures later { S.faults shelf.old ≤ S.faults shelf.new }
    ensures openings { OpensAtMost (formula.now ∷ log.now ∷ []) (S.openings shelf.old) (S.openings shelf.new) }
    ensures in_turn { S.tells shelf.old ≡ true → OpensLogInTurn (S.files shelf.old) formula.now (S.openings shelf.old) (S.openings shelf.new) }
{
    logs_are_plain();
    let question = read_question(alloc, shelf, formula, log)?;
    tolerance_of_question(alloc, widening, &question)
}
