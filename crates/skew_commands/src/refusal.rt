//! Why a command is refused, and the line that tells it.

ghost use Rattle.std.specs.Prelude.{◌≡◌, IfOk};
ghost use Rattle.skew_answers.specs.Statuses.{IsAnswer};
ghost use Rattle.skew_answers.specs.Texts.{line};
ghost use Rattle.skew_commands.specs.Refusals.{part_word as part_word_of, status_of, text_of};

use crate::reply::Reply;
use log_read::LogFault;
use mtl_parse::FormulaFault;
use skew_answers::Status;
use std::alloc::{AllocError, Global};
use std::fmt;

/// A file that a command names.
#[derive(Clone, Copy)]
pub enum Named {
    Formula,
    Log,
    Times,
    Report,
    Json,
}

/// A part of a report.
#[derive(Clone, Copy)]
pub enum ReportPart {
    /// The number of events.
    Events,
    /// The walk of bounds in conflict.
    Inconsistent,
    /// The section for true.
    OnTrue,
    /// The section for false.
    OnFalse,
}

/// Why a command is refused for what its files hold. Bytes count from 0, and the lines of a file from 1.
#[derive(Clone, Copy)]
pub enum Refusal {
    /// The file is longer than its limit.
    Length(Named),
    /// The text of the formula has the fault.
    Formula(FormulaFault),
    /// The host of a proposition, whose word begins at the byte, is not in the log.
    UnknownHost { byte: u32 },
    /// The log has the fault.
    Log(LogFault),
    /// The file is not one JSON value.
    JsonSyntax,
    /// The JSON value has not the shape of a log.
    JsonShape,
    /// The formula has more than 512 distinct nodes.
    Nodes,
    /// An event that is asked for, counted from 0, is not below the number of rows of the log.
    Event { event: u32 },
    /// A line of the times file is no time.
    TimesNumber { line: u32 },
    /// The times file lacks the line, or has one too many.
    TimesCount { line: u32 },
    /// The size of the formula and the log together is above 4,194,304.
    Size { size: u128 },
    /// No report begins with the lines of the report file up to this one.
    Report { line: u32 },
    /// The part of the report doesn't show what it claims: at a line of its derivation or a step of its walk, counted
    /// from 1, or as a whole, at 0.
    Part { part: ReportPart, line: u32 },
}

// The word of a part of a report.
fn part_word(part: ReportPart) -> &'static str
    ensures { result.now ≡ part_word_of part }
{
    match part {
        ReportPart::Events => "events",
        ReportPart::Inconsistent => "inconsistent",
        ReportPart::OnTrue => "true",
        ReportPart::OnFalse => "false",
    }
}

impl fmt::Display for Named {
    ghost use Rattle.std.specs.Prelude.{Some};
    ghost use Rattle.skew_commands.specs.Refusals.{word_of};

    ghost output = { λ n. Some (word_of n) };

    fn fmt<W: fmt::Write>(&self, f: &mut fmt::Formatter<W>) -> fmt::Result {
        match self {
            Named::Formula => f.write_str("formula"),
            Named::Log => f.write_str("log"),
            Named::Times => f.write_str("times"),
            Named::Report => f.write_str("report"),
            Named::Json => f.write_str("json"),
        }
    }
}

impl fmt::Display for Refusal {
    ghost use Rattle.std.specs.Prelude.{Some};
    ghost use Rattle.skew_commands.specs.Refusals.{text_of};

    ghost output = { λ r. Some (text_of r) };

    fn fmt<W: fmt::Write>(&self, f: &mut fmt::Formatter<W>) -> fmt::Result {
        match self {
            Refusal::Length(named) => write!(f, "refused length {named}"),
            Refusal::Formula(fault) => {
                let number = fault.number();
                match fault.byte() {
                    Some(byte) => write!(f, "refused formula {number} at byte {byte}"),
                    None => write!(f, "refused formula {number}"),
                }
            }
            Refusal::UnknownHost { byte } => write!(f, "refused formula 8 at byte {byte}"),
            Refusal::Log(fault) => {
                let number = fault.number();
                match fault.record() {
                    Some(record) => write!(f, "refused log {number} at record {record}"),
                    None => write!(f, "refused log {number}"),
                }
            }
            Refusal::JsonSyntax => f.write_str("refused json 1"),
            Refusal::JsonShape => f.write_str("refused json 2"),
            Refusal::Nodes => f.write_str("refused nodes above 512"),
            Refusal::Event { event } => write!(f, "refused event {event}"),
            Refusal::TimesNumber { line } => write!(f, "refused times 1 at line {line}"),
            Refusal::TimesCount { line } => write!(f, "refused times 2 at line {line}"),
            Refusal::Size { size } => write!(f, "refused size {size}"),
            Refusal::Report { line } => write!(f, "refused report at line {line}"),
            Refusal::Part { part, line } => {
                let word = part_word(*part);
                write!(f, "refused {word} at line {line}")
            }
        }
    }
}

impl Refusal {
    /// The status of the refusal.
    pub fn status(&self) -> Status
        ensures status { result ≡ status_of self.now }
        ensures answer { IsAnswer result }
        ensures command { result ≡ Status.Words → ⊥ }
    {
        match self {
            Refusal::Length(_) | Refusal::Nodes | Refusal::Size { .. } => Status::TooLarge,
            Refusal::Formula(_) | Refusal::UnknownHost { .. } => Status::FormulaRefused,
            Refusal::Log(_) | Refusal::JsonSyntax | Refusal::JsonShape => Status::LogRefused,
            Refusal::TimesNumber { .. } | Refusal::TimesCount { .. } => Status::TimesRefused,
            Refusal::Event { .. } => Status::EventRefused,
            Refusal::Report { .. } | Refusal::Part { .. } => Status::Rejected,
        }
    }

    /// The refusal as a reply: its one line and its status.
    pub fn reply(&self, alloc: Global) -> Result<Reply, AllocError>
        ensures text { IfOk result (λ r. r.text.items ≡ line (text_of self.now)) }
        ensures status { IfOk result (λ r. r.status ≡ status_of self.now) }
        ensures answer { IfOk result (λ r. IsAnswer r.status) }
        ensures command { IfOk result (λ r. r.status ≡ Status.Words → ⊥) }
    {
        let mut text = self.to_string(alloc)?;
        text.push('\n')?;
        Ok(Reply {
            text: text.into_bytes(),
            status: self.status(),
        })
    }
}
