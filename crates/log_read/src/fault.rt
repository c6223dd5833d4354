//! What can be wrong with a log file, by number and record.

ghost use Rattle.std.specs.Prelude.{◌≡◌};
ghost use Rattle.log_read.specs.Faults.{number_of, record_of};

use std::alloc::AllocError;
use std::fmt;
use thiserror::Error;

/// What is wrong with a log file, or want of memory. A `place` is the number of the faulty record,
/// from 1, the header included.
#[derive(Clone, Copy, Debug, Error)]
pub enum LogFault {
    /// The header is none of the three.
    Header { place: u32 },
    /// A record has not four fields.
    Width { place: u32 },
    /// A record is of no kind that the file's version knows.
    Kind { place: u32 },
    /// A host record has a word that names no host.
    HostName { place: u32 },
    /// A host of the name was declared before.
    DuplicateHost { place: u32 },
    /// A record is of a host that wasn't declared before it.
    UnknownHost { place: u32 },
    /// A number is out of form or of range.
    Number { place: u32 },
    /// A word is no name.
    Name { place: u32 },
    /// The message was sent before.
    DoubleSend { place: u32 },
    /// The message is sent nowhere.
    UnmatchedReceive { place: u32 },
    /// There is no row.
    NoEvent,
    /// A host is declared behind the 64th.
    TooManyHosts { place: u32 },
    /// A row stands behind the 1,024th.
    TooManyEvents { place: u32 },
    /// A host has a second latency.
    DoubleLatency { place: u32 },
    /// A greatest delay is below the least one.
    LatencyRange { place: u32 },
    /// A clock is named behind the 1,024th.
    TooManyClocks { place: u32 },
    /// A bound is of one row alone.
    SameRow { place: u32 },
    /// A bound stands behind the 1,048,575th.
    TooManyBounds { place: u32 },
    /// A bound is of a row that the log hasn't.
    NoRow { place: u32 },
    /// There is no memory.
    Memory,
}

impl LogFault {
    /// Its number, 1 to 13 or 15 to 20, and 0 for want of memory.
    pub fn number(&self) -> u8
        ensures number { result ≡ number_of self.now }
    {
        match self {
            LogFault::Memory => 0,
            LogFault::Header { .. } => 1,
            LogFault::Width { .. } => 2,
            LogFault::Kind { .. } => 3,
            LogFault::HostName { .. } => 4,
            LogFault::DuplicateHost { .. } => 5,
            LogFault::UnknownHost { .. } => 6,
            LogFault::Number { .. } => 7,
            LogFault::Name { .. } => 8,
            LogFault::DoubleSend { .. } => 9,
            LogFault::UnmatchedReceive { .. } => 10,
            LogFault::NoEvent => 11,
            LogFault::TooManyHosts { .. } => 12,
            LogFault::TooManyEvents { .. } => 13,
            LogFault::DoubleLatency { .. } => 15,
            LogFault::LatencyRange { .. } => 16,
            LogFault::TooManyClocks { .. } => 17,
            LogFault::SameRow { .. } => 18,
            LogFault::TooManyBounds { .. } => 19,
            LogFault::NoRow { .. } => 20,
        }
    }

    /// The number of the record that it is of, from 1; there is none where the log has no row, and for
    /// want of memory.
    pub fn record(&self) -> Option<u32>
        ensures record { result ≡ record_of self.now }
    {
        match self {
            LogFault::Header { place }
            | LogFault::Width { place }
            | LogFault::Kind { place }
            | LogFault::HostName { place }
            | LogFault::DuplicateHost { place }
            | LogFault::UnknownHost { place }
            | LogFault::Number { place }
            | LogFault::Name { place }
            | LogFault::DoubleSend { place }
            | LogFault::UnmatchedReceive { place }
            | LogFault::TooManyHosts { place }
            | LogFault::TooManyEvents { place }
            | LogFault::DoubleLatency { place }
            | LogFault::LatencyRange { place }
            | LogFault::TooManyClocks { place }
            | LogFault::SameRow { place }
            | LogFault::TooManyBounds { place }
            | LogFault::NoRow { place } => Some(*place),
            LogFault::NoEvent | LogFault::Memory => None,
        }
    }
}

impl fmt::Display for LogFault {
    fn fmt<W: fmt::Write>(&self, f: &mut fmt::Formatter<W>) -> fmt::Result {
        let wrong = match self {
            LogFault::Header { .. } =>
                "is none of the headers `kind,host,time,name`, `skewlog2,host,time,name` and `skewlog3,host,time,name`",
            LogFault::Width { .. } => "has not four fields",
            LogFault::Kind { .. } => "is of no kind that the file's version knows",
            LogFault::HostName { .. } => "declares a host with a word that names none",
            LogFault::DuplicateHost { .. } => "declares a host of a name that was declared",
            LogFault::UnknownHost { .. } => "is of a host that was not declared",
            LogFault::Number { .. } => "has a number out of form or range",
            LogFault::Name { .. } => "has a word that is no name",
            LogFault::DoubleSend { .. } => "sends a message that was sent",
            LogFault::UnmatchedReceive { .. } => "receives a message that is sent nowhere",
            LogFault::NoEvent => "there is no row",
            LogFault::TooManyHosts { .. } => "declares a host too many",
            LogFault::TooManyEvents { .. } => "is a row too many",
            LogFault::DoubleLatency { .. } => "states a latency of a host that has one",
            LogFault::LatencyRange { .. } => "states a greatest delay below the least",
            LogFault::TooManyClocks { .. } => "names a clock too many",
            LogFault::SameRow { .. } => "bounds a row by itself",
            LogFault::TooManyBounds { .. } => "is a bound too many",
            LogFault::NoRow { .. } => "bounds a row that the log does not have",
            LogFault::Memory => "out of memory",
        };
        match self.record() {
            Some(place) => write!(f, "record {place} {wrong}"),
            None => f.write_str(wrong),
        }
    }
}

impl From<AllocError> for LogFault {
    ghost use Rattle.std.specs.Prelude.{◌≡◌};
    ghost use Rattle.log_read.specs.declared.fault.LogFault.TheVariants.{Memory};

    ghost from_gives = { λ _ f. f ≡ Memory };

    fn from(_: AllocError) -> Self {
        LogFault::Memory
    }
}
