//! The text of reports from their outlines.

ghost use Rattle.std.specs.Prelude.{◌≡◌, ◌++◌, IfOk, OnOk, codes, false, true};
ghost use Rattle.std.specs.Fmt.{decimal};
ghost use Rattle.report_text.specs.declared.report.Report.{Report};
ghost use Rattle.report_text.specs.Outlines.{IsOutlineOf, outlined_text};
ghost use Rattle.report_text.specs.Parts.{kind_text};
ghost use Rattle.report_text.specs.ReportText.{body_text, ended, events_of as events_of_report, report_text};

use crate::front::word_of;
use crate::outline::{Outline, SectionOutline};
use crate::part::Kind;
use crate::printer::{push_ended, push_numbered};
use std::alloc::{AllocError, Global};

// Room for the lines that stand in no text of an outline.
const HEAD_ROOM: usize = 128;

// Adds the first line of a section.
fn push_kind(alloc: Global, text: &mut Vec<u8>, value: bool, kind: Kind) -> Result<(), AllocError>
    ensures { OnOk result (text.new.items ≡ text.old.items ++ kind_text value kind) }
{
    text.extend_from_slice(word_of(value))?;
    match kind {
        Kind::Witness => push_ended(text, b" witness"),
        Kind::Refuted(count) => push_numbered(alloc, text, b" refuted ", count),
        Kind::Unknown(count) => push_numbered(alloc, text, b" unknown ", count),
    }
}

fn push_section(
    alloc: Global,
    text: &mut Vec<u8>,
    value: bool,
    outline: SectionOutline,
) -> Result<(), AllocError>
    ensures { OnOk result (text.new.items ≡ text.old.items ++ (kind_text value outline.entry.kind ++ outline.entry.text.now)) }
{
    push_kind(alloc, text, value, outline.kind)?;
    text.extend_from_slice(outline.text)
}

// Adds the number of bounds, and their lines.
fn push_walk(alloc: Global, text: &mut Vec<u8>, count: u32, bounds: &[u8]) -> Result<(), AllocError>
    ensures { OnOk result (text.new.items ≡ text.old.items ++ (ended (codes "inconsistent " ++ decimal count) ++ bounds.now)) }
{
    push_numbered(alloc, text, b"inconsistent ", count)?;
    text.extend_from_slice(bounds)
}

fn push_sections(
    alloc: Global,
    text: &mut Vec<u8>,
    on_true: SectionOutline,
    on_false: SectionOutline,
) -> Result<(), AllocError>
    ensures { OnOk result (text.new.items ≡ text.old.items ++ (outlined_text true on_true.entry ++ outlined_text false on_false.entry)) }
{
    push_section(alloc, text, true, on_true)?;
    push_section(alloc, text, false, on_false)
}

// Adds what stands between the number of events and the last line.
fn push_body(alloc: Global, text: &mut Vec<u8>, outline: Outline) -> Result<(), AllocError>
    ensures { OnOk result ((r : Report) → IsOutlineOf outline.entry r → text.new.items ≡ text.old.items ++ body_text r) }
{
    match outline {
        Outline::Inconsistent {
            count,
            text: bounds,
            ..
        } => push_walk(alloc, text, count, bounds),
        Outline::Verdicts {
            on_true,
            on_false,
            ..
        } => push_sections(alloc, text, on_true, on_false),
    }
}

fn events_of(outline: Outline) -> u32
    ensures { (r : Report) → IsOutlineOf outline.entry r → result ≡ events_of_report r }
{
    match outline {
        Outline::Inconsistent { events, .. } | Outline::Verdicts { events, .. } => events,
    }
}

// Room for the text of the report.
fn room_for(outline: Outline) -> usize {
    match outline {
        Outline::Inconsistent { text, .. } => text.len().saturating_add(HEAD_ROOM),
        Outline::Verdicts {
            on_true,
            on_false,
            ..
        } => on_true
            .text
            .len()
            .saturating_add(on_false.text.len())
            .saturating_add(HEAD_ROOM),
    }
}

/// The text of the report of an outline, for which room is taken at once. The error only says that memory ran out.
pub fn print_outline(alloc: Global, outline: Outline) -> Result<Vec<u8>, AllocError>
    ensures text { IfOk result (λ bytes. (r : Report) → IsOutlineOf outline.entry r → bytes.items ≡ report_text r) }
{
    let mut text = Vec::with_capacity(alloc, room_for(outline))?;
    push_ended(&mut text, b"skewcheck 1")?;
    push_numbered(alloc, &mut text, b"events ", events_of(outline))?;
    push_body(alloc, &mut text, outline)?;
    push_ended(&mut text, b"end")?;
    Ok(text)
}
