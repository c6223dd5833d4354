//! What `trim` answers: a report whose refuted sections have the needed lines alone.

ghost use Rattle.std.specs.Prelude.{◌≡◌, ◌∷◌, [], ◌^◌, ◌<◌, ◌≤◌, ℕ, List, length, true, IfOk, OnOk, IsErrOf, IsSome};
ghost use Rattle.mt_port.specs.Port.{Opens, Rose, file_of};
ghost use Rattle.proof_log.specs.declared.line.Line.{Line};
ghost use Rattle.proof_log.specs.LinesOf.{IsTextOf};
ghost use Rattle.proof_trim.specs.Placed.{IsTrimmedText};
ghost use Rattle.report_text.specs.declared.report.Report.{Report};
ghost use Rattle.report_text.specs.declared.report.Section.{Section};
ghost use Rattle.report_text.specs.declared.report.Section.TheVariants.{Refuted};
ghost use Rattle.report_text.specs.Outlines.{IsOutlineIn, IsOutlineOf, IsSectionOutline};
ghost use Rattle.report_text.specs.Spelled.{IsSpelled, IsSpelledSection};
ghost use Rattle.verdict.specs.OfOutlines.{OfSection};
ghost use Rattle.skew_answers.specs.Statuses.{IsVerdict};
ghost use Rattle.skew_commands.specs.Possible.{OfSomeFile};
ghost use Rattle.skew_commands.specs.Stops.{Gives, NeverFailsToRead, RefusesFor};
ghost use Rattle.skew_cli.specs.TrimOutcome.{CanTrim, CanTrimSection, TellsSection, TellsUntrimmed, TrimOfReport, TrimOutcome};
ghost use Rattle.skew_cli.specs.TrimmedText.{AreOutlined, IsSectionLeft, IsTrimText, OfOutlined, kind_left, text_left};

use crate::limits::REPORT_LIMIT;
use crate::report_file;
use mt_port::Shelf;
use proof_trim::{TrimFault, TrimmedText, trim_text};
use report_text::{Kind, Outline, SectionOutline, print_outline};
use skew_answers::Status;
use skew_commands::{Named, Refusal, Reply, ReportPart, Stop, files};
use std::alloc::Global;

// The text of lines, trimmed.
fn trimmed_lines(
    alloc: Global,
    part: ReportPart,
    text: &[u8],
    count: u32,
) -> Result<TrimmedText, Stop>
    requires few { length text.now < 2 ^ 31 }
    requires lines { (lines : List Line) × IsTextOf text.now lines }
    ensures trimmed { IfOk result (λ t. (lines : List Line) → IsTextOf text.now lines → IsTrimmedText lines t.text.items t.count) }
    ensures can { OnOk result ((lines : List Line) → IsTextOf text.now lines → CanTrimSection (Refuted lines)) }
    ensures reads_nothing { IsErrOf result Stop.ReadFailed → ⊥ }
    ensures refused { (lines : List Line) → IsTextOf text.now lines → RefusesFor result (TellsSection part (Refuted lines)) }
{
    match trim_text(alloc, text, count) {
        Ok(trimmed) => Ok(trimmed),
        Err(TrimFault::Empty) => Err(Stop::Refused(Refusal::Part { part, line: 0 })),
        Err(TrimFault::Hint { line }) => Err(Stop::Refused(Refusal::Part { part, line })),
        Err(TrimFault::Memory) => Err(Stop::NoMemory),
    }
}

// The text of a refuted section's lines, trimmed, and None for any other section, which stays as it is.
fn trimmed_section(
    alloc: Global,
    part: ReportPart,
    section: SectionOutline,
) -> Result<Option<TrimmedText>, Stop>
    requires short { length section.text.now < 2 ^ 31 }
    requires some { (events : ℕ) × (s : Section) × IsSectionOutline section s × IsSpelledSection events s }
    ensures trimmed { IfOk result (λ o. (events : ℕ) → OfSection section.entry events (λ s. IsSectionLeft events section.entry s o)) }
    ensures can { OnOk result ((events : ℕ) → OfSection section.entry events CanTrimSection) }
    ensures reads_nothing { IsErrOf result Stop.ReadFailed → ⊥ }
    ensures refused { (events : ℕ) → OfSection section.entry events (λ s. RefusesFor result (TellsSection part s)) }
{
    match section.kind {
        Kind::Refuted(count) => Ok(Some(trimmed_lines(alloc, part, section.text, count)?)),
        Kind::Witness | Kind::Unknown(_) => Ok(None),
    }
}

// The outline of a section with its trimmed lines, where it has such.
fn outline_with<'a>(
    section: SectionOutline<'a>,
    trimmed: &'a Option<TrimmedText>,
) -> SectionOutline<'a>
    ensures kind { result.kind ≡ kind_left section.entry trimmed.now }
    ensures text { result.text.now ≡ text_left section.entry trimmed.now }
{
    match trimmed {
        Some(trimmed) => SectionOutline {
            kind: Kind::Refuted(trimmed.count),
            text: &trimmed.text,
        },
        None => section,
    }
}

// The text of a report of verdicts, trimmed.
fn trimmed_verdicts(
    alloc: Global,
    events: u32,
    on_true: SectionOutline,
    on_false: SectionOutline,
) -> Result<Vec<u8>, Stop>
    requires true_short { length on_true.text.now < 2 ^ 31 }
    requires false_short { length on_false.text.now < 2 ^ 31 }
    requires some { (s t : Section) × AreOutlined events on_true on_false s t }
    ensures trimmed { IfOk result (λ text. OfOutlined events on_true.entry on_false.entry (λ r. IsTrimText r text.items)) }
    ensures can { OnOk result (OfOutlined events on_true.entry on_false.entry CanTrim) }
    ensures reads_nothing { IsErrOf result Stop.ReadFailed → ⊥ }
    ensures refused { OfOutlined events on_true.entry on_false.entry (λ r. RefusesFor result (TellsUntrimmed r)) }
{
    let left_true = trimmed_section(alloc, ReportPart::OnTrue, on_true)?;
    let left_false = trimmed_section(alloc, ReportPart::OnFalse, on_false)?;
    let outline = Outline::Verdicts {
        events,
        on_true: outline_with(on_true, &left_true),
        on_false: outline_with(on_false, &left_false),
    };
    Ok(print_outline(alloc, outline)?)
}

// The text of the report of an outline, trimmed.
fn trimmed_report(alloc: Global, outline: Outline) -> Result<Vec<u8>, Stop>
    requires whole { (bytes : List ℕ) × (length bytes < 2 ^ 31) × IsOutlineIn bytes outline }
    ensures trimmed { IfOk result (λ text. (r : Report) → IsOutlineOf outline.entry r → IsSpelled r → IsTrimText r text.items) }
    ensures can { OnOk result ((r : Report) → IsOutlineOf outline.entry r → IsSpelled r → CanTrim r) }
    ensures reads_nothing { IsErrOf result Stop.ReadFailed → ⊥ }
    ensures refused { (r : Report) → IsOutlineOf outline.entry r → IsSpelled r → RefusesFor result (TellsUntrimmed r) }
{
    match outline {
        Outline::Inconsistent { .. } => Ok(print_outline(alloc, outline)?),
        Outline::Verdicts {
            events,
            on_true,
            on_false,
        } => trimmed_verdicts(alloc, events, on_true, on_false),
    }
}

// What `trim` answers for the report of an outline.
fn trim_of_report(alloc: Global, outline: Outline) -> Result<Reply, Stop>
    requires whole { (bytes : List ℕ) × (length bytes < 2 ^ 31) × IsOutlineIn bytes outline }
    ensures outcome { (r : Report) → IsOutlineOf outline.entry r → IsSpelled r → Gives (TrimOfReport r) result }
    ensures verdict { IfOk result (λ r. IsVerdict r.status) }
    ensures reads_nothing { IsErrOf result Stop.ReadFailed → ⊥ }
{
    let text = trimmed_report(alloc, outline)?;
    Ok(Reply {
        text,
        status: Status::Zero,
    })
}

/// What `trim` answers for the report of a name.
pub fn trim<S: Shelf>(alloc: Global, shelf: &mut S, report: &str) -> Result<Reply, Stop>
    ensures outcome { S.tells shelf.old ≡ true → Gives (TrimOutcome (S.files shelf.old) report.now) result }
    ensures possible { Gives (OfSomeFile TrimOutcome) result }
    ensures verdict { IfOk result (λ r. IsVerdict r.status) }
    ensures failed { IsErrOf result Stop.ReadFailed → Rose (S.faults shelf.old) (S.faults shelf.new) }
    ensures told { ¬ IsErrOf result Stop.ReadFailed → S.faults shelf.new ≡ S.faults shelf.old }
    ensures never { NeverFailsToRead (S.steady shelf.old) (S.tells shelf.old) (IsSome (file_of (S.files shelf.old) report.now)) result }
    ensures later { S.faults shelf.old ≤ S.faults shelf.new }
    ensures once { Opens (report.now ∷ []) (S.openings shelf.old) (S.openings shelf.new) }
{
    let file = files::file(alloc, shelf, report, REPORT_LIMIT, Named::Report)?;
    let outline = report_file::outline_of(alloc, &file)?;
    trim_of_report(alloc, outline)
}
