//! What `check` answers: the truth values of a formula over all timings of a log.

ghost use Rattle.std.specs.Prelude.{◌≡◌, ◌∷◌, [], ◌^◌, ◌<◌, ◌≤◌, ◌||◌, length, true, IfOk, IsErrOf, IsTrue, None, Ok, OnOk};
ghost use Rattle.mt_model.specs.Form.{form_of};
ghost use Rattle.mt_model.specs.State.{unknown_host};
ghost use Rattle.mt_port.specs.Port.{Rose};
ghost use Rattle.mtl_parse.specs.FormulaOf.{FormulaOf};
ghost use Rattle.report_text.specs.ReportText.{report_text};
ghost use Rattle.report_text.specs.Spelled.{IsSpelled};
ghost use Rattle.verdict.specs.Claims.{Claims};
ghost use Rattle.question.specs.Faults.{IsJudged};
ghost use Rattle.verdict.specs.Right.{CyclesOnce, HasFewLines, IsRight, is_witness};
ghost use Rattle.skew_words.specs.declared.limits.TheConstants.{MAX_CONFLICTS};
ghost use Rattle.skew_answers.specs.Statuses.{IsVerdict};
ghost use Rattle.skew_cli.specs.CheckOutcome.{CheckOfLog, CheckOutcome, IsReportStatus, IsVerdictsStatus, IsWitnessed};
ghost use Rattle.skew_commands.specs.Openings.{OpensAtMost, OpensLogInTurn};
ghost use Rattle.skew_commands.specs.Possible.{OfSomeQuestion};
ghost use Rattle.skew_commands.specs.Reads.{HoldsQuestion, NoThird};
ghost use Rattle.skew_best.specs.SizeTests.{TellsLarge};
ghost use Rattle.skew_commands.specs.Stops.{Gives, NeverFailsToRead, RefusesFor};

use mt_model::{Formula, Log};
use mt_port::Shelf;
use report_text::{Report, Section, print_report};
use skew_answers::Status;
use skew_commands::{Question, Refusal, Reply, Stop, files, read_question};
use std::alloc::{AllocError, Global};
use verdict::{VerdictFault, decide};

// The status of the sections for true and for false, of which one is a witness.
fn verdicts_status(on_true: &Section, on_false: &Section) -> Status
    requires { IsTrue (is_witness on_true.now || is_witness on_false.now) }
    ensures status { IsVerdictsStatus on_true.now on_false.now result }
    ensures verdict { IsVerdict result }
{
    match (on_true, on_false) {
        (Section::Unknown(_), _) | (_, Section::Unknown(_)) => Status::Unknown,
        (Section::Witness(_), Section::Witness(_)) => Status::Two,
        (Section::Witness(_), Section::Refuted(_)) => Status::Zero,
        (Section::Refuted(_), Section::Witness(_)) => Status::One,
        (Section::Refuted(_), Section::Refuted(_)) => unreachable!(),
    }
}

/// The status of a report.
pub fn report_status(report: &Report) -> Status
    requires { IsWitnessed report.now }
    ensures status { IsReportStatus report.now result }
    ensures verdict { IsVerdict result }
{
    match report {
        Report::Inconsistent { .. } => Status::Inconsistent,
        Report::Verdicts {
            on_true,
            on_false,
            ..
        } => verdicts_status(on_true, on_false),
    }
}

// A report as a reply.
fn report_reply(alloc: Global, report: &Report) -> Result<Reply, AllocError>
    requires spelled { IsSpelled report.now }
    requires witnessed { IsWitnessed report.now }
    ensures text { IfOk result (λ r. r.text.items ≡ report_text report.now) }
    ensures status { IfOk result (λ r. IsReportStatus report.now r.status) }
    ensures verdict { IfOk result (λ r. IsVerdict r.status) }
{
    Ok(Reply {
        text: print_report(alloc, report)?,
        status: report_status(report),
    })
}

/// The report on a formula and a log, where the formula's hosts are in the log, with so many conflicts in each section.
pub fn report_on(
    alloc: Global,
    conflicts: u32,
    log: &Log,
    formula: &Formula,
) -> Result<Report, Stop>
    requires some { 1 ≤ conflicts }
    requires most { conflicts ≤ MAX_CONFLICTS }
    requires known { unknown_host log.now (form_of formula.now) ≡ None }
    ensures right { IfOk result (IsRight log.now (form_of formula.now) conflicts) }
    ensures claims { IfOk result (Claims log.now (form_of formula.now)) }
    ensures once { IfOk result (CyclesOnce log.now) }
    ensures few { IfOk result (HasFewLines conflicts) }
    ensures judged { OnOk result (IsJudged log.now (form_of formula.now)) }
    ensures reads_nothing { IsErrOf result Stop.ReadFailed → ⊥ }
    ensures refused { RefusesFor result (TellsLarge (form_of formula.now) log.now) }
{
    match decide(alloc, log, formula, conflicts) {
        Ok(report) => Ok(report),
        Err(VerdictFault::UnknownHost { .. }) => unreachable!(),
        Err(VerdictFault::TooManyNodes) => Err(Stop::Refused(Refusal::Nodes)),
        Err(VerdictFault::TooLarge { size }) => Err(Stop::Refused(Refusal::Size { size })),
        Err(VerdictFault::Memory) => Err(Stop::NoMemory),
    }
}

// What `check` answers for a formula and a log.
fn check_of_question(alloc: Global, conflicts: u32, question: &Question) -> Result<Reply, Stop>
    requires some { 1 ≤ conflicts }
    requires most { conflicts ≤ MAX_CONFLICTS }
    requires short { length question.now.text.items < 2 ^ 31 }
    requires reads { FormulaOf question.now.text.items (Ok (form_of question.now.formula)) }
    ensures outcome { Gives (CheckOfLog conflicts question.now.text.items (form_of question.now.formula) question.now.log) result }
    ensures verdict { IfOk result (λ r. IsVerdict r.status) }
    ensures reads_nothing { IsErrOf result Stop.ReadFailed → ⊥ }
{
    files::known_hosts(&question.text, &question.formula, &question.log)?;
    let report = report_on(alloc, conflicts, &question.log, &question.formula)?;
    Ok(report_reply(alloc, &report)?)
}

/// What `check` answers for the formula and the log of these names, with so many conflicts in each section.
pub fn check<S: Shelf>(
    alloc: Global,
    shelf: &mut S,
    conflicts: u32,
    formula: &str,
    log: &str,
) -> Result<Reply, Stop>
    requires some { 1 ≤ conflicts }
    requires most { conflicts ≤ MAX_CONFLICTS }
    ensures outcome { S.tells shelf.old ≡ true → Gives (CheckOutcome (S.files shelf.old) conflicts formula.now log.now) result }
    ensures possible { Gives (OfSomeQuestion (λ files. CheckOutcome files conflicts)) result }
    ensures verdict { IfOk result (λ r. IsVerdict r.status) }
    ensures failed { IsErrOf result Stop.ReadFailed → Rose (S.faults shelf.old) (S.faults shelf.new) }
    ensures told { ¬ IsErrOf result Stop.ReadFailed → S.faults shelf.new ≡ S.faults shelf.old }
    ensures never { NeverFailsToRead (S.steady shelf.old) (S.tells shelf.old) (HoldsQuestion (S.files shelf.old) formula.now log.now NoThird) result }
    ensures later { S.faults shelf.old ≤ S.faults shelf.new }
    ensures openings { OpensAtMost (formula.now ∷ log.now ∷ []) (S.openings shelf.old) (S.openings shelf.new) }
    ensures in_turn { S.tells shelf.old ≡ true → OpensLogInTurn (S.files shelf.old) formula.now (S.openings shelf.old) (S.openings shelf.new) }
{
    let question = read_question(alloc, shelf, formula, log)?;
    check_of_question(alloc, conflicts, &question)
}
