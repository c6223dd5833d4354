//! Outlines of reports from their text.

ghost use Rattle.std.specs.Prelude.{◌≡◌, ◌<◌, ◌≤◌, ◌+◌, ◌-◌, ◌^◌, length, take, false, MatchResult};
ghost use Rattle.report_text.specs.Outlines.{AnswersOutline, AreEntriesOutlined, AreVerdictsOutlined, IsFalseOutlined, IsOutlineOf, IsOutlinedFront};
ghost use Rattle.report_text.specs.ReportOf.{IsReport, lines_in};
ghost use Rattle.report_text.specs.ReportText.{body_text, marked_text, report_text};
ghost use Rattle.report_text.specs.Spelled.{IsSpelled};
ghost use Rattle.report_text.specs.Stops.{AreEntries, AreVerdicts, BeginWithEntries, IsBody, IsMarked, IsOn, IsSectionText, Stopped};

use crate::fault::ReportFault;
use crate::front::{after_words, next_events, next_kind, next_opening};
use crate::items::{pass_bounds, pass_lines, pass_times};
use crate::outline::{Outline, SectionOutline};
use crate::part::{Kind, Opening};
use crate::stop::Stop;
use std::alloc::Global;

// The bytes before those that are left.
fn before<'a>(bytes: &'a [u8], rest: &[u8]) -> &'a [u8]
    requires { length rest.now ≤ length bytes.now }
    ensures { result.now ≡ take (length bytes.now - length rest.now) bytes.now }
{
    &bytes[..bytes.len() - rest.len()]
}

// What follows the lines of a section after its first.
fn after_entries(alloc: Global, kind: Kind, events: u32, bytes: &[u8]) -> Result<&[u8], Stop>
    ensures { MatchResult result (λ rest. BeginWithEntries events kind bytes.now rest.now) (Stopped (AreEntries events kind) bytes.now) }
{
    match kind {
        Kind::Witness => pass_times(events, bytes),
        Kind::Refuted(count) => pass_lines(alloc, count, bytes),
        Kind::Unknown(count) => pass_lines(alloc, count, bytes),
    }
}

// The lines of a section after its first.
fn outline_entries(
    alloc: Global,
    kind: Kind,
    events: u32,
    bytes: &[u8],
) -> Result<(SectionOutline, &[u8]), Stop>
    ensures { MatchResult result (λ r. AreEntriesOutlined events kind bytes.now r.0 r.1.now) (Stopped (AreEntries events kind) bytes.now) }
{
    let rest = after_entries(alloc, kind, events, bytes)?;
    let text = before(bytes, rest);
    Ok((SectionOutline { kind, text }, rest))
}

fn outline_false_section(
    alloc: Global,
    events: u32,
    bytes: &[u8],
) -> Result<(SectionOutline, &[u8]), Stop>
    ensures { MatchResult result (λ r. IsFalseOutlined events bytes.now r.0 r.1.now) (Stopped (IsSectionText false events) bytes.now) }
{
    let Some((kind, rest)) = next_kind(false, bytes) else {
        return Err(Stop::Syntax { left: bytes.len() });
    };
    outline_entries(alloc, kind, events, rest)
}

// The true section without its first line, and the false section.
fn outline_verdicts(
    alloc: Global,
    kind: Kind,
    events: u32,
    bytes: &[u8],
) -> Result<(Outline, &[u8]), Stop>
    ensures { MatchResult result (λ r. AreVerdictsOutlined events kind bytes.now r.0 r.1.now) (Stopped (AreVerdicts events kind) bytes.now) }
{
    let (on_true, rest) = outline_entries(alloc, kind, events, bytes)?;
    let (on_false, rest) = outline_false_section(alloc, events, rest)?;
    let outline = Outline::Verdicts {
        events,
        on_true,
        on_false,
    };
    Ok((outline, rest))
}

// What stands between the number of events and the last line.
fn outline_body(alloc: Global, events: u32, bytes: &[u8]) -> Result<(Outline, &[u8]), Stop>
    ensures { MatchResult result (λ r. IsOutlinedFront IsOutlineOf (IsOn events) body_text bytes.now r.0 r.1.now) (Stopped (IsBody events) bytes.now) }
{
    let Some((opening, rest)) = next_opening(bytes) else {
        return Err(Stop::Syntax { left: bytes.len() });
    };
    match opening {
        Opening::Inconsistent(count) => {
            let after = pass_bounds(count, rest)?;
            let text = before(rest, after);
            let outline = Outline::Inconsistent {
                events,
                count,
                text,
            };
            Ok((outline, after))
        }
        Opening::OnTrue(kind) => outline_verdicts(alloc, kind, events, rest),
    }
}

// A report after the line that names the format.
fn outline_marked(alloc: Global, bytes: &[u8]) -> Result<(Outline, &[u8]), Stop>
    ensures { MatchResult result (λ r. IsOutlinedFront IsOutlineOf IsSpelled marked_text bytes.now r.0 r.1.now) (Stopped IsMarked bytes.now) }
{
    let Some((events, rest)) = next_events(bytes) else {
        return Err(Stop::Syntax { left: bytes.len() });
    };
    let (outline, rest) = outline_body(alloc, events, rest)?;
    let Some(after) = after_words(b"end", rest) else {
        return Err(Stop::Syntax { left: rest.len() });
    };
    Ok((outline, after))
}

// A report, and what follows it.
fn outline_front(alloc: Global, bytes: &[u8]) -> Result<(Outline, &[u8]), Stop>
    ensures { MatchResult result (λ r. IsOutlinedFront IsOutlineOf IsSpelled report_text bytes.now r.0 r.1.now) (Stopped IsReport bytes.now) }
{
    let Some(rest) = after_words(b"skewcheck 1", bytes) else {
        return Err(Stop::Syntax { left: bytes.len() });
    };
    outline_marked(alloc, rest)
}

fn count_lines(bytes: &[u8]) -> usize
    ensures { result ≡ lines_in bytes.now }
{
    bytes.iter().filter(|b| **b == b'\n').count()
}

// The fault of bytes of which so many are left from the faulty line on.
fn fault_at(bytes: &[u8], left: usize) -> ReportFault
    requires few { length bytes.now < 2 ^ 31 }
    requires within { left ≤ length bytes.now }
    ensures { result ≡ ReportFault.Syntax (lines_in (take (length bytes.now - left) bytes.now) + 1) }
{
    let lines = count_lines(&bytes[..bytes.len() - left]);
    ReportFault::Syntax {
        line: lines as u32 + 1,
    }
}

/// The outline of the report whose text the bytes are, with the faults of `read_report`. Memory is taken for the
/// atoms of one line of a derivation at a time.
pub fn read_outline(alloc: Global, bytes: &[u8]) -> Result<Outline, ReportFault>
    requires { length bytes.now < 2 ^ 31 }
    ensures answer { AnswersOutline bytes.now result }
{
    match outline_front(alloc, bytes) {
        Ok((outline, rest)) => {
            if rest.is_empty() {
                Ok(outline)
            } else {
                Err(fault_at(bytes, rest.len()))
            }
        }
        Err(Stop::Syntax { left }) => Err(fault_at(bytes, left)),
        Err(Stop::Memory) => Err(ReportFault::Memory),
    }
}
