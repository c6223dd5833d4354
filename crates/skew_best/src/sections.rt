//! The sections of answers.

ghost use Rattle.std.specs.Prelude.{◌≡◌, ◌++◌, IfOk};
ghost use Rattle.report_text.specs.ReportText.{ended, last_line, section_text};
ghost use Rattle.skew_best.specs.Spelled.{HasSpelling};

use report_text::{Section, push_ended, push_section};
use std::alloc::{AllocError, Global};

/// A first line, and the section of a value.
pub fn begun(
    alloc: Global,
    first: &[u8],
    value: bool,
    section: &Section,
) -> Result<Vec<u8>, AllocError>
    requires { HasSpelling section.now }
    ensures { IfOk result (λ text. text.items ≡ ended first.now ++ section_text value section.now) }
{
    let mut text = Vec::new(alloc);
    push_ended(&mut text, first)?;
    push_section(alloc, &mut text, value, section)?;
    Ok(text)
}

/// A first line, the section of a value, and the last line.
pub fn whole(
    alloc: Global,
    first: &[u8],
    value: bool,
    section: &Section,
) -> Result<Vec<u8>, AllocError>
    requires { HasSpelling section.now }
    ensures { IfOk result (λ text. text.items ≡ ended first.now ++ (section_text value section.now ++ ended last_line)) }
{
    let mut text = begun(alloc, first, value, section)?;
    push_ended(&mut text, b"end")?;
    Ok(text)
}
