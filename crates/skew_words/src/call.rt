//! Commands with the names of their files and the numbers that they are given.

/// A command with the names of its files, and the number of conflicts of each section of a report or of each search.
#[derive(Clone, Copy)]
pub enum Call<'a> {
    /// An admissible timing of a log.
    Times {
        log: &'a str,
    },
    /// The truth of a formula on one timing of a log.
    Replay {
        formula: &'a str,
        log: &'a str,
        times: &'a str,
    },
    /// Happened-before of the events of a log.
    Order {
        log: &'a str,
    },
    /// The truth values of a formula over all timings of a log.
    Check {
        conflicts: u32,
        formula: &'a str,
        log: &'a str,
    },
    /// Whether a report is accepted.
    Audit {
        conflicts: u32,
        formula: &'a str,
        log: &'a str,
        report: &'a str,
    },
    /// A report with the needed lines of its refuted sections alone.
    Trim {
        report: &'a str,
    },
    /// The text of the log that a JSON file is.
    Json {
        json: &'a str,
    },
    /// The least widening of all skews, up to a greatest one, with which a formula can have a value.
    Tolerance {
        conflicts: u32,
        value: bool,
        /// The greatest widening, in the log's unit of time.
        max: u64,
        formula: &'a str,
        log: &'a str,
    },
    /// The greatest distance from one event to another in the timings that give a formula a value.
    Span {
        conflicts: u32,
        value: bool,
        /// An event, counted from 0.
        from: u32,
        /// An event, counted from 0.
        to: u32,
        formula: &'a str,
        log: &'a str,
    },
    /// The truth values of the demo's formula over all timings of the log of a seed.
    Demo {
        seed: u64,
    },
}
