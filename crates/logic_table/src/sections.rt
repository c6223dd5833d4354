//! The sections of the table.

use crate::case::LogicCase;
use crate::trails::Trails;
use crate::{derivations, faults, graphs, lines, problems, rules, searches, systems, verdicts};
use std::alloc::Global;
use table_case::{Table, push_marked, text_of};

// What a section asks about.
#[derive(Clone, Copy)]
enum Section {
    Rules,
    Problems,
    Derivations,
    Searches,
    Verdicts,
    Lines,
    Faults,
    Systems,
    Graphs,
    Trails,
}

/// The section of the lines that come, and the case that its questions are on.
#[derive(Drop)]
pub struct Sections {
    section: Section,
    case: LogicCase,
    trails: Trails,
}

// The section of a heading, whose bracket is taken off.
fn section_of(heading: &[u8]) -> Option<Section> {
    match text_of(heading)? {
        "rules]" => Some(Section::Rules),
        "problems]" => Some(Section::Problems),
        "derivations]" => Some(Section::Derivations),
        "searches]" => Some(Section::Searches),
        "verdicts]" => Some(Section::Verdicts),
        "lines]" => Some(Section::Lines),
        "faults]" => Some(Section::Faults),
        "systems]" => Some(Section::Systems),
        "graphs]" => Some(Section::Graphs),
        "trails]" => Some(Section::Trails),
        _ => None,
    }
}

impl Sections {
    /// Before the first heading the section is the one on rules.
    pub fn new(alloc: Global) -> Sections {
        Sections {
            section: Section::Rules,
            case: LogicCase::new(alloc),
            trails: Trails::new(alloc),
        }
    }

    // Begins a section.
    fn begin(&mut self, heading: &[u8], out: &mut Vec<u8>) -> Option<()> {
        self.section = section_of(heading)?;
        push_marked(out, b'[', heading)
    }
}

impl Table for Sections {
    fn take(&mut self, alloc: Global, mark: u8, text: &[u8], out: &mut Vec<u8>) -> Option<()> {
        if mark == b'[' {
            return self.begin(text, out);
        }
        match self.section {
            Section::Rules => rules::take(alloc, &mut self.case, mark, text, out),
            Section::Problems => problems::take(alloc, &mut self.case, mark, text, out),
            Section::Derivations => derivations::take(alloc, &mut self.case, mark, text, out),
            Section::Searches => searches::take(alloc, &mut self.case, mark, text, out),
            Section::Verdicts => verdicts::take(alloc, &mut self.case, mark, text, out),
            Section::Lines => lines::take(alloc, &mut self.case, mark, text, out),
            Section::Faults => faults::take(alloc, mark, text, out),
            Section::Systems => systems::take(alloc, mark, text, out),
            Section::Graphs => graphs::take(alloc, mark, text, out),
            Section::Trails => self.trails.take(alloc, mark, text, out),
        }
    }
}
