//! Reports by where their parts stand in a text.

use crate::part::Kind;

/// A section by its first line and the text of the lines after it.
#[derive(Clone, Copy)]
pub struct SectionOutline<'a> {
    pub kind: Kind,
    pub text: &'a [u8],
}

/// A report by where its parts stand, which takes no memory of its own.
#[derive(Clone, Copy)]
pub enum Outline<'a> {
    Inconsistent {
        events: u32,
        /// The number of bounds.
        count: u32,
        /// Their lines.
        text: &'a [u8],
    },
    Verdicts {
        events: u32,
        on_true: SectionOutline<'a>,
        on_false: SectionOutline<'a>,
    },
}
