//! The audit of reports by their outlines: of a derivation one line at a time is read.

ghost use Rattle.std.specs.Prelude.{◌≡◌, ◌↔◌, ◌<◌, ◌^◌, ℕ, List, length, IfErr, IfOk, IsTrue, OnOk, None};
ghost use Rattle.mt_model.specs.Form.{form_of};
ghost use Rattle.mt_model.specs.State.{unknown_host};
ghost use Rattle.mt_model.specs.Timing.{Admissible};
ghost use Rattle.skew_bounds.specs.System.{IsSystemOf};
ghost use Rattle.proof_log.specs.LinesOf.{IsTextOf};
ghost use Rattle.proof_log.specs.declared.line.Line.{Line};
ghost use Rattle.proof_check.specs.Answering.{IsAnswer};
ghost use Rattle.report_text.specs.Outlines.{IsOutlineIn, IsOutlineOf, IsSectionOutline};
ghost use Rattle.report_text.specs.ReportText.{events_of as events_of_report};
ghost use Rattle.report_text.specs.Spelled.{IsSpelledSection, IsSpelledWitness};
ghost use Rattle.report_text.specs.declared.report.Report.{Report};
ghost use Rattle.report_text.specs.declared.report.Section.{Section};
ghost use Rattle.verdict.specs.AuditPlace.{IsAccepted, IsAudit, IsJudgedAt, IsRefusedAtPlace};
ghost use Rattle.verdict.specs.Claims.{Claims};
ghost use Rattle.verdict.specs.OfOutlines.{CountsLearnLines, OfAnswer, OfOutline, IsAuditOfVerdicts, IsOutlineJudgedAt};
ghost use Rattle.question.specs.Faults.{IsFault, IsJudged};
ghost use Rattle.verdict.specs.Right.{IsRight, IsWitness};
ghost use Rattle.report_text.specs.declared.report.Section.TheVariants as section;

use crate::bounds::audit_of_bounds;
use crate::laws::{accepted_reports_are_true, audits_are_exact, right_reports_are_accepted};
use crate::{Audit, Part, VerdictFault};
use mt_model::{Formula, Log, log_is_valid};
use proof_check::{Check, Checker, TextCheck};
use question::{Nodes, Question};
use report_text::{Kind, Outline, SectionOutline, times_of};
use skew_bounds::{BoundSystem, EdgeTable, first_broken};
use std::alloc::{AllocError, Global};
use witness_replay::truth_by;

// Whether a log admits times, of which there is one for each row.
fn admits(log: &Log, system: &BoundSystem, times: &[i128]) -> bool
    requires system { IsSystemOf log.now system.now }
    requires spelled { IsSpelledWitness (length log.now.rows) times.now }
    ensures { IsTrue result ↔ Admissible log.now times.now }
{
    first_broken(
        log,
        system.readings.as_slice(),
        system.bounds.as_slice(),
        times,
    )
    .is_none()
}

// Whether the log admits times and the formula has the value in them.
fn is_witness(
    alloc: Global,
    question: &Question,
    value: bool,
    times: &[i128],
) -> Result<bool, AllocError>
    requires spelled { IsSpelledWitness (length question.now.log.rows) times.now }
    ensures witness { IfOk result (λ b. IsTrue b ↔ IsWitness question.now.log question.now.form value times.now) }
{
    if admits(question.log(), question.system(), times) {
        Ok(truth_by(alloc, question, times)? == value)
    } else {
        Ok(false)
    }
}

// What the lines of a text are.
fn checked_text(
    alloc: Global,
    question: &Question,
    value: bool,
    text: &[u8],
) -> Result<TextCheck, AllocError>
    requires few { length text.now < 2 ^ 31 }
    ensures answer { IfOk result (λ t. (lines : List Line) → IsTextOf text.now lines → IsAnswer question.now.log question.now.form value lines t.check) }
    ensures learn { IfOk result (λ t. (lines : List Line) → IsTextOf text.now lines → CountsLearnLines t lines) }
{
    let mut judge = Checker::by(alloc, question.log(), question.nodes(), value)?;
    judge.check_text(text)
}

// The line at which a refuted section fails whose lines are this, and None where it shows what it says.
fn refuted_line(check: Check) -> Option<u32>
    ensures { OfAnswer check (λ log f v lines. (budget : ℕ) → IsJudgedAt log f budget v (section.Refuted lines) result) }
{
    match check {
        Check::Refutes => None,
        Check::Derives => Some(0),
        Check::Wrong(line) => Some(line),
    }
}

// The same of an unknown section.
fn unknown_line(budget: u32, found: TextCheck) -> Option<u32>
    ensures { OfAnswer found.check (λ log f v lines. CountsLearnLines found lines → IsJudgedAt log f budget v (section.Unknown lines) result) }
{
    match found.check {
        Check::Derives if found.learn_lines == budget => None,
        Check::Refutes | Check::Derives => Some(0),
        Check::Wrong(line) => Some(line),
    }
}

// The line at which a section fails, and None where it shows what it says.
fn failing_line(
    alloc: Global,
    question: &Question,
    budget: u32,
    value: bool,
    outline: SectionOutline,
) -> Result<Option<u32>, AllocError>
    requires short { length outline.text.now < 2 ^ 31 }
    requires some { (s : Section) × IsSectionOutline outline s × IsSpelledSection (length question.now.log.rows) s }
    ensures { IfOk result (IsOutlineJudgedAt question.now.log question.now.form budget value outline.entry) }
{
    match outline.kind {
        Kind::Witness => {
            let times = times_of(alloc, question.log().rows().len() as u32, outline.text)?;
            let shows = is_witness(alloc, question, value, times.as_slice())?;
            Ok(if shows { None } else { Some(0) })
        }
        Kind::Refuted(_) => {
            let found = checked_text(alloc, question, value, outline.text)?;
            Ok(refuted_line(found.check))
        }
        Kind::Unknown(_) => {
            let found = checked_text(alloc, question, value, outline.text)?;
            Ok(unknown_line(budget, found))
        }
    }
}

// What an audit says of verdicts on as many events as the log has rows.
fn audit_of_sections(
    alloc: Global,
    question: &Question,
    budget: u32,
    on_true: SectionOutline,
    on_false: SectionOutline,
) -> Result<Audit, AllocError>
    requires true_short { length on_true.text.now < 2 ^ 31 }
    requires false_short { length on_false.text.now < 2 ^ 31 }
    requires true_some { (s : Section) × IsSectionOutline on_true s × IsSpelledSection (length question.now.log.rows) s }
    requires false_some { (s : Section) × IsSectionOutline on_false s × IsSpelledSection (length question.now.log.rows) s }
    ensures { IfOk result (IsAuditOfVerdicts question.now.log question.now.form budget on_true.entry on_false.entry) }
{
    if let Some(line) = failing_line(alloc, question, budget, true, on_true)? {
        let part = Part::OnTrue;
        return Ok(Audit::Refused { part, line });
    }
    if let Some(line) = failing_line(alloc, question, budget, false, on_false)? {
        let part = Part::OnFalse;
        return Ok(Audit::Refused { part, line });
    }
    Ok(Audit::Accepted)
}

// The number of events that a report is about.
fn events_of(outline: Outline) -> u32
    ensures { (r : Report) → IsOutlineOf outline.entry r → result ≡ events_of_report r }
{
    match outline {
        Outline::Inconsistent { events, .. } | Outline::Verdicts { events, .. } => events,
    }
}

// What an audit says of a report on a formula with few enough nodes.
fn audit_by(
    alloc: Global,
    question: &Question,
    budget: u32,
    outline: Outline,
) -> Result<Audit, AllocError>
    requires whole { (bytes : List ℕ) × (length bytes < 2 ^ 31) × IsOutlineIn bytes outline }
    ensures { IfOk result (λ a. OfOutline outline.entry (λ r. IsAudit question.now.log question.now.form budget r a)) }
{
    let log = question.log();
    if events_of(outline) as usize != log.rows().len() {
        let part = Part::Events;
        return Ok(Audit::Refused { part, line: 0 });
    }
    match outline {
        Outline::Inconsistent { count, text, .. } => {
            let table = EdgeTable::of(alloc, log)?;
            Ok(audit_of_bounds(log, &table, count, text))
        }
        Outline::Verdicts {
            on_true,
            on_false,
            ..
        } => audit_of_sections(alloc, question, budget, on_true, on_false),
    }
}

// What an audit says of a report on the formula of these nodes, whose hosts are in the log. The differences of the log's
// rows, which tell the size, are let go before.
fn audit_on(
    alloc: Global,
    log: &Log,
    nodes: &Nodes,
    budget: u32,
    outline: Outline,
) -> Result<Audit, VerdictFault>
    requires hosts { unknown_host log.now nodes.now ≡ None }
    requires whole { (bytes : List ℕ) × (length bytes < 2 ^ 31) × IsOutlineIn bytes outline }
    ensures audit { IfOk result (λ a. OfOutline outline.entry (λ r. IsAudit log.now nodes.now budget r a)) }
    ensures judged { OnOk result (IsJudged log.now nodes.now) }
    ensures fault { IfErr result (IsFault log.now nodes.now) }
{
    let question = Question::new(alloc, log, nodes)?;
    question.ready(alloc)?;
    Ok(audit_by(alloc, &question, budget, outline)?)
}

/// What `audit` says of the report of an outline. Beside the outline's text memory is taken for the differences of the
/// log's rows, which are let go, and then for the clauses of one derivation and for the places of one line's literals.
pub fn audit_outline(
    alloc: Global,
    log: &Log,
    f: &Formula,
    budget: u32,
    outline: Outline,
) -> Result<Audit, VerdictFault>
    requires whole { (bytes : List ℕ) × (length bytes < 2 ^ 31) × IsOutlineIn bytes outline }
    ensures accepted { IfOk result (λ a. OfOutline outline.entry (λ r. (a ≡ Audit.Accepted) ↔ IsAccepted log.now (form_of f.now) budget r)) }
    ensures refused { IfOk result (λ a. OfOutline outline.entry (λ r. IsRefusedAtPlace log.now (form_of f.now) budget r a)) }
    ensures claims { IfOk result (λ a. OfOutline outline.entry (λ r. a ≡ Audit.Accepted → Claims log.now (form_of f.now) r)) }
    ensures right { IfOk result (λ a. (r : Report) → IsOutlineOf outline.entry r → IsRight log.now (form_of f.now) budget r → a ≡ Audit.Accepted) }
    ensures judged { OnOk result (IsJudged log.now (form_of f.now)) }
    ensures fault { IfErr result (IsFault log.now (form_of f.now)) }
{
    accepted_reports_are_true();
    audits_are_exact();
    right_reports_are_accepted();
    log_is_valid(log);
    let nodes = Nodes::asked(alloc, log, f)?;
    audit_on(alloc, log, &nodes, budget, outline)
}
