//! The audit of reports, each by its text.

ghost use Rattle.std.specs.Prelude.{◌≡◌, ◌↔◌, ◌<◌, ◌^◌, length, IfErr, IfOk, OnOk};
ghost use Rattle.mt_model.specs.Form.{form_of};
ghost use Rattle.report_text.specs.Outlines.{IsOutlineIn, IsOutlineOf};
ghost use Rattle.report_text.specs.ReportText.{report_text};
ghost use Rattle.report_text.specs.Spelled.{IsSpelled};
ghost use Rattle.report_text.specs.declared.report.Report.{Report};
ghost use Rattle.verdict.specs.AuditPlace.{IsAccepted, IsRefusedAtPlace};
ghost use Rattle.verdict.specs.Claims.{Claims};
ghost use Rattle.question.specs.Faults.{IsFault, IsJudged};
ghost use Rattle.verdict.specs.Right.{IsRight};

use crate::{Audit, Part, VerdictFault, audit_outline};
use mt_model::{Formula, Log};
use report_text::{Outline, Report, print_report, read_outline, texts_tell_apart};
use std::alloc::{AllocError, Global};

/// The least length of a text that isn't outlined.
const TOO_LONG: usize = 1 << 31;

// The outline of the text of a report. A text of 2^31 bytes or more is told as want of memory.
fn outline_of(alloc: Global, text: &[u8]) -> Result<Outline<'_>, AllocError>
    requires report { (r : Report) × IsSpelled r × (report_text r ≡ text.now) }
    ensures whole { IfOk result (λ o. (length text.now < 2 ^ 31) × IsOutlineIn text.now o) }
    ensures outlined { IfOk result (λ o. (r : Report) → IsSpelled r → report_text r ≡ text.now → IsOutlineOf o r) }
{
    texts_tell_apart();
    if text.len() >= TOO_LONG {
        return Err(AllocError);
    }
    match read_outline(alloc, text) {
        Ok(outline) => Ok(outline),
        Err(_) => Err(AllocError),
    }
}

/// Whether a report shows what it claims of a formula over all timings that a log admits, and else the first part that
/// doesn't. What an accepted report claims is so, whoever wrote it. The report has a spelling; its unknown sections are to
/// have as many Learn lines as the budget.
///
/// Whether the lines of an unknown section are fresh isn't asked. The faults are those of `decide`. The report is audited by
/// its text, as by `audit_outline`: a text of 2^31 bytes or more is answered with want of memory.
pub fn audit(
    alloc: Global,
    log: &Log,
    f: &Formula,
    budget: u32,
    report: &Report,
) -> Result<Audit, VerdictFault>
    requires spelled { IsSpelled report.now }
    ensures accepted { IfOk result (λ a. (a ≡ Audit.Accepted) ↔ IsAccepted log.now (form_of f.now) budget report.now) }
    ensures refused { IfOk result (IsRefusedAtPlace log.now (form_of f.now) budget report.now) }
    ensures claims { IfOk result (λ a. a ≡ Audit.Accepted → Claims log.now (form_of f.now) report.now) }

    // What `decide` gives for the same budget is accepted.
    ensures right { IfOk result (λ a. IsRight log.now (form_of f.now) budget report.now → a ≡ Audit.Accepted) }

    ensures judged { OnOk result (IsJudged log.now (form_of f.now)) }
    ensures fault { IfErr result (IsFault log.now (form_of f.now)) }
{
    let text = print_report(alloc, report)?;
    let outline = outline_of(alloc, text.as_slice())?;
    audit_outline(alloc, log, f, budget, outline)
}
