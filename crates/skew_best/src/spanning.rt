//! The command `span`.

ghost use Rattle.std.specs.Prelude.{◌≡◌, ◌∷◌, [], ◌≢◌, ◌^◌, ◌<◌, ◌≤◌, length, true, IfOk, IsErrOf, None, Ok, OnOk};
ghost use Rattle.mt_model.specs.Form.{form_of};
ghost use Rattle.mt_model.specs.Log.{IsPlain};
ghost use Rattle.mt_model.specs.State.{unknown_host};
ghost use Rattle.mt_port.specs.Port.{Rose};
ghost use Rattle.mtl_parse.specs.FormulaOf.{FormulaOf};
ghost use Rattle.question.specs.Faults.{IsJudged};
ghost use Rattle.verdict_span.specs.Told.{IsInconsistentExactly, Tells};
ghost use Rattle.verdict_span.specs.Widest.{WidestRight};
ghost use Rattle.skew_words.specs.declared.limits.TheConstants.{MAX_CONFLICTS};
ghost use Rattle.skew_answers.specs.Statuses.{IsVerdict};
ghost use Rattle.skew_commands.specs.Openings.{OpensAtMost, OpensLogInTurn};
ghost use Rattle.skew_commands.specs.Possible.{OfSomeQuestion};
ghost use Rattle.skew_commands.specs.Reads.{HoldsQuestion, NoThird};
ghost use Rattle.skew_commands.specs.Stops.{Gives, NeverFailsToRead, RefusesFor};
ghost use Rattle.skew_best.specs.EventTests.{TellsEvent, missing_event};
ghost use Rattle.skew_best.specs.SizeTests.{TellsLarge};
ghost use Rattle.skew_best.specs.Spelled.{IsSpelledWidest};
ghost use Rattle.skew_best.specs.SpanOutcome.{SpanOfQuestion, SpanOutcomeOf, span_status};
ghost use Rattle.skew_best.specs.SpanText.{span_text};

use crate::span_text::written_span;
use log_read::logs_are_plain;
use mt_model::{EventId, Formula, Log, log_is_valid};
use mt_port::Shelf;
use skew_answers::Status;
use skew_commands::{Question, Refusal, Reply, Stop, files, read_question};
use std::alloc::{AllocError, Global};
use verdict_span::{SpanFault, Widest, widest};

/// A greatest distance that is looked for: how long after one event another comes at most, in the log's unit of time, in the
/// timings that give the formula a value. The events count from 0.
#[derive(Clone, Copy)]
pub struct Distance {
    /// How many conflicts each search may have, from 1 to 1,000,000.
    pub conflicts: u32,
    /// The value of the formula.
    pub value: bool,
    /// The event from which the distance counts.
    pub from: u32,
    /// The event up to which it counts.
    pub to: u32,
}

// The status of an answer.
fn status_of(answer: &Widest) -> Status
    ensures status { result ≡ span_status answer.now }
    ensures verdict { IsVerdict result }
{
    match answer {
        Widest::Greatest { .. } => Status::Zero,
        Widest::Never { .. } => Status::One,
        Widest::Inconsistent(_) => Status::Inconsistent,
        Widest::Unknown { .. } => Status::Unknown,
    }
}

// An answer as a reply.
fn span_reply(alloc: Global, value: bool, answer: Widest) -> Result<Reply, AllocError>
    requires { IsSpelledWidest answer }
    ensures text { IfOk result (λ r. r.text.items ≡ span_text value answer) }
    ensures status { IfOk result (λ r. r.status ≡ span_status answer) }
    ensures verdict { IfOk result (λ r. IsVerdict r.status) }
{
    let status = status_of(&answer);
    let text = written_span(alloc, value, answer)?;
    Ok(Reply { text, status })
}

// That two events are rows of a log.
fn known_events(log: &Log, e: u32, to: u32) -> Result<(), Stop>
    ensures known { OnOk result (missing_event log.now e to ≡ None) }
    ensures row { OnOk result (e < length log.now.rows) }
    ensures other { OnOk result (to < length log.now.rows) }
    ensures read { IsErrOf result Stop.ReadFailed → ⊥ }
    ensures refused { RefusesFor result (TellsEvent e to log.now) }
{
    let rows = log.rows().len();
    if rows <= e as usize {
        return Err(Stop::Refused(Refusal::Event { event: e }));
    }
    if rows <= to as usize {
        return Err(Stop::Refused(Refusal::Event { event: to }));
    }
    Ok(())
}

// The greatest distance of two events for a formula and a log, where the formula's hosts are in the log.
fn greatest_distance(
    alloc: Global,
    distance: Distance,
    log: &Log,
    formula: &Formula,
) -> Result<Widest, Stop>
    requires some { 1 ≤ distance.conflicts }
    requires most { distance.conflicts ≤ MAX_CONFLICTS }
    requires apart { distance.from ≢ distance.to }
    requires row { distance.from < length log.now.rows }
    requires other { distance.to < length log.now.rows }
    requires plain { IsPlain log.now }
    requires known { unknown_host log.now (form_of formula.now) ≡ None }
    ensures right { IfOk result (WidestRight log.now (form_of formula.now) distance.value distance.from distance.to distance.conflicts) }
    ensures tells { IfOk result (Tells log.now (form_of formula.now) distance.value distance.from distance.to distance.conflicts) }
    ensures inconsistent { IfOk result (IsInconsistentExactly log.now) }
    ensures judged { OnOk result (IsJudged log.now (form_of formula.now)) }
    ensures spelled { IfOk result IsSpelledWidest }
    ensures read { IsErrOf result Stop.ReadFailed → ⊥ }
    ensures refused { RefusesFor result (TellsLarge (form_of formula.now) log.now) }
{
    let Distance {
        conflicts,
        value,
        from: e,
        to,
    } = distance;
    log_is_valid(log);
    match widest(
        alloc,
        log,
        formula,
        value,
        EventId::new(e),
        EventId::new(to),
        conflicts,
    ) {
        Ok(answer) => Ok(answer),
        Err(SpanFault::UnknownHost { .. }) => unreachable!(),
        Err(SpanFault::TooManyNodes) => Err(Stop::Refused(Refusal::Nodes)),
        Err(SpanFault::TooLarge { size }) => Err(Stop::Refused(Refusal::Size { size })),
        Err(SpanFault::Memory) => Err(Stop::NoMemory),
    }
}

// What `span` answers for a formula and a log.
fn span_of_question(alloc: Global, distance: Distance, question: &Question) -> Result<Reply, Stop>
    requires some { 1 ≤ distance.conflicts }
    requires most { distance.conflicts ≤ MAX_CONFLICTS }
    requires apart { distance.from ≢ distance.to }
    requires plain { IsPlain question.now.log }
    requires short { length question.now.text.items < 2 ^ 31 }
    requires reads { FormulaOf question.now.text.items (Ok (form_of question.now.formula)) }
    ensures outcome { Gives (SpanOfQuestion distance question.now) result }
    ensures verdict { IfOk result (λ r. IsVerdict r.status) }
    ensures read { IsErrOf result Stop.ReadFailed → ⊥ }
{
    files::known_hosts(&question.text, &question.formula, &question.log)?;
    files::few_nodes(alloc, &question.formula)?;
    known_events(&question.log, distance.from, distance.to)?;
    let answer = greatest_distance(alloc, distance, &question.log, &question.formula)?;
    Ok(span_reply(alloc, distance.value, answer)?)
}

/// What `span` answers for the formula and the log of these names: the greatest distance of two different events.
pub fn span<S: Shelf>(
    alloc: Global,
    shelf: &mut S,
    distance: Distance,
    formula: &str,
    log: &str,
) -> Result<Reply, Stop>
    requires some { 1 ≤ distance.conflicts }
    requires most { distance.conflicts ≤ MAX_CONFLICTS }
    requires apart { distance.from ≢ distance.to }
    ensures outcome { S.tells shelf.old ≡ true → Gives (SpanOutcomeOf distance (S.files shelf.old) formula.now log.now) result }
    ensures possible { Gives (OfSomeQuestion (SpanOutcomeOf distance)) result }
    ensures verdict { IfOk result (λ r. IsVerdict r.status) }
    ensures failed { IsErrOf result Stop.ReadFailed → Rose (S.faults shelf.old) (S.faults shelf.new) }
    ensures told { ¬ IsErrOf result Stop.ReadFailed → S.faults shelf.new ≡ S.faults shelf.old }
    ensures never { NeverFailsToRead (S.steady shelf.old) (S.tells shelf.old) (HoldsQuestion (S.files shelf.old) formula.now log.now NoThird) result }
    ensures later { S.faults shelf.old ≤ S.faults shelf.new }
    ensures openings { OpensAtMost (formula.now ∷ log.now ∷ []) (S.openings shelf.old) (S.openings shelf.new) }
    ensures in_turn { S.tells shelf.old ≡ true → OpensLogInTurn (S.files shelf.old) formula.now (S.openings shelf.old) (S.openings shelf.new) }
{
    logs_are_plain();
    let question = read_question(alloc, shelf, formula, log)?;
    span_of_question(alloc, distance, &question)
}
