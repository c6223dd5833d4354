//! The section on verdicts.

ghost use Rattle.report_text.specs.Spelled.{IsSpelled};

use crate::case::LogicCase;
use crate::writing::push_items;
use mt_model::{Formula, Log};
use report_text::{Report, Section};
use std::alloc::Global;
use table_case::{formula_of, number_of, push_line, push_marked, split_word, text_of};
use verdict::{Audit, Part, audit, decide};

// A formula, and the conflicts of its report and of the audit.
#[derive(Drop)]
struct Question {
    spent: u32,
    allowed: u32,
    formula: Formula,
}

fn section_word(section: &Section) -> &'static str {
    match section {
        Section::Witness(_) => "witness",
        Section::Refuted(_) => "refuted",
        Section::Unknown(_) => "unknown",
    }
}

fn refusal_words(part: Part) -> &'static str {
    match part {
        Part::Events => "refused events at line",
        Part::Inconsistent => "refused inconsistent at line",
        Part::OnTrue => "refused true at line",
        Part::OnFalse => "refused false at line",
    }
}

// Adds the kinds of two sections.
fn push_kinds(on_true: &Section, on_false: &Section, out: &mut Vec<u8>) -> Option<()> {
    out.extend_from_slice(b"true ").ok()?;
    out.extend_from_slice(section_word(on_true).as_bytes())
        .ok()?;
    out.extend_from_slice(b", false ").ok()?;
    push_line(out, section_word(on_false).as_bytes())
}

// Adds the kinds of a report's sections.
fn push_report(report: &Report, out: &mut Vec<u8>) -> Option<()> {
    match report {
        Report::Inconsistent { .. } => push_line(out, b"inconsistent"),
        Report::Verdicts {
            on_true,
            on_false,
            ..
        } => push_kinds(on_true, on_false, out),
    }
}

fn push_audit(alloc: Global, audit: Audit, out: &mut Vec<u8>) -> Option<()> {
    match audit {
        Audit::Accepted => push_line(out, b"accepted"),
        Audit::Refused { part, line } => push_items(alloc, refusal_words(part), &[line], out),
    }
}

fn question_of(alloc: Global, text: &str) -> Option<Question> {
    let (spent, rest) = split_word(text);
    let (allowed, formula) = split_word(rest);
    Some(Question {
        spent: number_of(spent)?,
        allowed: number_of(allowed)?,
        formula: formula_of(alloc, formula.as_bytes())?,
    })
}

// Adds the kinds of a report's sections, and what the audit of it says.
fn push_audited(
    alloc: Global,
    log: &Log,
    question: &Question,
    report: &Report,
    out: &mut Vec<u8>,
) -> Option<()>
    requires spelled { IsSpelled report.now }
{
    let audit = audit(alloc, log, &question.formula, question.allowed, report).ok()?;
    push_report(report, out)?;
    push_audit(alloc, audit, out)
}

// Adds what is decided of a log, and what the audit of it says.
fn push_decided(alloc: Global, log: &Log, question: &Question, out: &mut Vec<u8>) -> Option<()> {
    if question.spent < 1 || question.spent > 1_000_000 {
        return None;
    }
    let report = decide(alloc, log, &question.formula, question.spent).ok()?;
    push_audited(alloc, log, question, &report, out)
}

// Adds what is decided of the log of a case.
fn push_decided_of(
    alloc: Global,
    case: &LogicCase,
    question: &Question,
    out: &mut Vec<u8>,
) -> Option<()> {
    let log = case.log(alloc)?;
    push_decided(alloc, &log, question, out)
}

// Adds what is decided of the formula that a text names.
fn push_verdict(alloc: Global, case: &LogicCase, text: &str, out: &mut Vec<u8>) -> Option<()> {
    let question = question_of(alloc, text)?;
    push_decided_of(alloc, case, &question, out)
}

/// Takes in a line of the section, and adds what it asks for.
pub fn take(
    alloc: Global,
    case: &mut LogicCase,
    mark: u8,
    text: &[u8],
    out: &mut Vec<u8>,
) -> Option<()> {
    if mark != b'?' {
        return case.take(alloc, mark, text, out);
    }
    push_marked(out, mark, text)?;
    push_verdict(alloc, case, text_of(text)?, out)
}
