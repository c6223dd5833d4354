//! What `audit` answers: whether a report shows what it claims of a formula and a log.

ghost use Rattle.std.specs.Prelude.{◌≡◌, ◌∷◌, [], ◌^◌, ◌<◌, ◌≤◌, ℕ, List, length, codes, true, IfOk, IsErrOf, None, Ok};
ghost use Rattle.formula_arena.specs.Nodes.{nodes_of};
ghost use Rattle.formula_arena.specs.declared.arena.TheConstants.{MAX_NODES};
ghost use Rattle.mt_model.specs.Form.{form_of};
ghost use Rattle.mt_model.specs.State.{unknown_host};
ghost use Rattle.mt_port.specs.Port.{Rose};
ghost use Rattle.mtl_parse.specs.FormulaOf.{FormulaOf};
ghost use Rattle.report_text.specs.Outlines.{IsOutlineIn};
ghost use Rattle.verdict.specs.OfOutlines.{OfOutline};
ghost use Rattle.skew_answers.specs.Statuses.{IsVerdict};
ghost use Rattle.skew_answers.specs.Texts.{line};
ghost use Rattle.skew_cli.specs.AuditOutcome.{AuditOfQuestion, AuditOfSize, AuditOutcome, refused_part};
ghost use Rattle.skew_commands.specs.Openings.{OpensAtMost, OpensInTurn, OpensMoreOnly, PassesHosts};
ghost use Rattle.skew_commands.specs.Possible.{OfSomeThird};
ghost use Rattle.skew_commands.specs.Reads.{HoldsAfter, HoldsThree};
ghost use Rattle.skew_commands.specs.Stops.{Gives, NeverFailsToRead};
ghost use Rattle.skew_commands.specs.Untold.{GivesForSome};

use crate::limits::REPORT_LIMIT;
use crate::report_file;
use mt_port::Shelf;
use report_text::Outline;
use skew_answers::Status;
use skew_commands::{Named, Question, Refusal, Reply, ReportPart, Stop, files, read_question};
use std::alloc::{AllocError, Global};
use verdict::{Audit, Part, VerdictFault};

// The refusal of a report at a part and a line.
fn refused(part: Part, line: u32) -> Refusal
    ensures { result ≡ Refusal.Part (refused_part part) line }
{
    let part = match part {
        Part::Events => ReportPart::Events,
        Part::Inconsistent => ReportPart::Inconsistent,
        Part::OnTrue => ReportPart::OnTrue,
        Part::OnFalse => ReportPart::OnFalse,
    };
    Refusal::Part { part, line }
}

// The reply to a report that is accepted.
fn accepted(alloc: Global) -> Result<Reply, AllocError>
    ensures text { IfOk result (λ r. r.text.items ≡ line (codes "accepted")) }
    ensures zero { IfOk result (λ r. r.status ≡ Status.Zero) }
{
    Ok(Reply {
        text: b"accepted\n".to_vec(alloc)?,
        status: Status::Zero,
    })
}

// What `audit` answers for the report of an outline on a formula and a log, where the formula's hosts are in the log and its nodes
// are few.
fn audit_of_report(
    alloc: Global,
    conflicts: u32,
    question: &Question,
    outline: Outline,
) -> Result<Reply, Stop>
    requires whole { (bytes : List ℕ) × (length bytes < 2 ^ 31) × IsOutlineIn bytes outline }
    requires known { unknown_host question.now.log (form_of question.now.formula) ≡ None }
    requires few { length (nodes_of (form_of question.now.formula)) ≤ MAX_NODES }
    ensures outcome { OfOutline outline.entry (λ r. Gives (AuditOfSize conflicts (form_of question.now.formula) question.now.log r) result) }
    ensures verdict { IfOk result (λ r. IsVerdict r.status) }
    ensures reads_nothing { IsErrOf result Stop.ReadFailed → ⊥ }
{
    match verdict::audit_outline(alloc, &question.log, &question.formula, conflicts, outline) {
        Ok(Audit::Accepted) => Ok(accepted(alloc)?),
        Ok(Audit::Refused { part, line }) => Err(Stop::Refused(refused(part, line))),
        Err(VerdictFault::UnknownHost { .. } | VerdictFault::TooManyNodes) => unreachable!(),
        Err(VerdictFault::TooLarge { size }) => Err(Stop::Refused(Refusal::Size { size })),
        Err(VerdictFault::Memory) => Err(Stop::NoMemory),
    }
}

// What it answers for a formula and a log, and the report of a name.
fn audit_of_question<S: Shelf>(
    alloc: Global,
    shelf: &mut S,
    conflicts: u32,
    question: &Question,
    report: &str,
) -> Result<Reply, Stop>
    requires short { length question.now.text.items < 2 ^ 31 }
    requires reads { FormulaOf question.now.text.items (Ok (form_of question.now.formula)) }
    ensures outcome { S.tells shelf.old ≡ true → Gives (AuditOfQuestion (S.files shelf.old) conflicts report.now question.now) result }
    ensures possible { GivesForSome (λ files name. AuditOfQuestion files conflicts name question.now) result }
    ensures verdict { IfOk result (λ r. IsVerdict r.status) }
    ensures failed { IsErrOf result Stop.ReadFailed → Rose (S.faults shelf.old) (S.faults shelf.new) }
    ensures told { ¬ IsErrOf result Stop.ReadFailed → S.faults shelf.new ≡ S.faults shelf.old }
    ensures never { NeverFailsToRead (S.steady shelf.old) (S.tells shelf.old) (HoldsAfter question.now (S.files shelf.old) report.now) result }
    ensures later { S.faults shelf.old ≤ S.faults shelf.new }
    ensures openings { OpensAtMost (report.now ∷ []) (S.openings shelf.old) (S.openings shelf.new) }
    ensures in_turn { OpensMoreOnly [] (PassesHosts (form_of question.now.formula) question.now.log) (S.openings shelf.old) (S.openings shelf.new) }
{
    files::known_hosts(&question.text, &question.formula, &question.log)?;
    files::few_nodes(alloc, &question.formula)?;
    let file = files::file(alloc, shelf, report, REPORT_LIMIT, Named::Report)?;
    let outline = report_file::outline_of(alloc, &file)?;
    audit_of_report(alloc, conflicts, question, outline)
}

/// What `audit` answers for the formula, the log and the report of these names, where an unknown section is to have so
/// many Learn lines.
pub fn audit<S: Shelf>(
    alloc: Global,
    shelf: &mut S,
    conflicts: u32,
    formula: &str,
    log: &str,
    report: &str,
) -> Result<Reply, Stop>
    ensures outcome { S.tells shelf.old ≡ true → Gives (AuditOutcome (S.files shelf.old) conflicts formula.now log.now report.now) result }
    ensures possible { Gives (OfSomeThird (λ files. AuditOutcome files conflicts)) result }
    ensures verdict { IfOk result (λ r. IsVerdict r.status) }
    ensures failed { IsErrOf result Stop.ReadFailed → Rose (S.faults shelf.old) (S.faults shelf.new) }
    ensures told { ¬ IsErrOf result Stop.ReadFailed → S.faults shelf.new ≡ S.faults shelf.old }
    ensures never { NeverFailsToRead (S.steady shelf.old) (S.tells shelf.old) (HoldsThree (S.files shelf.old) formula.now log.now report.now) result }
    ensures later { S.faults shelf.old ≤ S.faults shelf.new }
    ensures openings { OpensAtMost (formula.now ∷ log.now ∷ report.now ∷ []) (S.openings shelf.old) (S.openings shelf.new) }
    ensures in_turn { S.tells shelf.old ≡ true → OpensInTurn (S.files shelf.old) formula.now log.now (S.openings shelf.old) (S.openings shelf.new) }
{
    let question = read_question(alloc, shelf, formula, log)?;
    audit_of_question(alloc, shelf, conflicts, &question, report)
}
