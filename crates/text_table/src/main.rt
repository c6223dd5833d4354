//! Answers questions on texts. The standard input is a table. A line that begins with `[` is the heading of a part,
//! and is written again; what the other lines of a part say stands in the part's file:
//!
//! - `[formulas`: how formulas are read, written and numbered (`src/formulas.rt`).
//! - `[logs`: how logs come about, and what is asked of them (`src/logs.rt`).
//! - `[reports`: how reports are read and written (`src/reports.rt`).
//! - `[devices`: how files in memory are read, and how a sink in memory takes what is written (`src/devices.rt`).
//!
//! A line that begins with `#` is left out.
#![tactic(auto)]

mod devices;
mod formulas;
mod logs;
mod reports;
mod telling;

use crate::devices::Devices;
use crate::formulas::Formulas;
use crate::logs::Logs;
use crate::reports::Reports;
use std::alloc::Global;
use std::process::ExitCode;
use table_case::{Table, push_marked, text_of};

// A part of the table.
#[derive(Clone, Copy)]
enum Part {
    Formulas,
    Logs,
    Reports,
    Devices,
}

// The part that the lines are of, and what those of each part said so far.
#[derive(Drop)]
struct Texts {
    part: Part,
    formulas: Formulas,
    logs: Logs,
    reports: Reports,
    devices: Devices,
}

fn part_of(heading: &[u8]) -> Option<Part> {
    match text_of(heading)? {
        "formulas" => Some(Part::Formulas),
        "logs" => Some(Part::Logs),
        "reports" => Some(Part::Reports),
        "devices" => Some(Part::Devices),
        _ => None,
    }
}

impl Table for Texts {
    fn take(&mut self, alloc: Global, mark: u8, text: &[u8], out: &mut Vec<u8>) -> Option<()> {
        if mark == b'#' {
            return Some(());
        }
        if mark == b'[' {
            self.part = part_of(text)?;
            return push_marked(out, mark, text);
        }
        match self.part {
            Part::Formulas => self.formulas.take(alloc, mark, text, out),
            Part::Logs => self.logs.take(alloc, mark, text, out),
            Part::Reports => self.reports.take(alloc, mark, text, out),
            Part::Devices => self.devices.take(alloc, mark, text, out),
        }
    }
}

fn main(rt: HostRuntime) -> ExitCode {
    let alloc = rt.alloc();
    let mut table = Texts {
        part: Part::Formulas,
        formulas: Formulas::new(alloc),
        logs: Logs::new(alloc),
        reports: Reports::new(alloc),
        devices: Devices::new(alloc),
    };
    table_case::run(&rt, &mut table)
}
