//! The three versions of log files, and the headers that tell them.

ghost use Rattle.std.specs.Prelude.{◌≡◌};
ghost use Rattle.log_read.specs.LogOf.{is_header, known_in, version_of as version_told};

use crate::fields::Fields;
use crate::kind::{EventKind, Kind};

/// The version of a log file, which its header tells. The second one knows resyncs, latencies and
/// pulses, and the third one readings of clocks and bounds too.
#[derive(Clone, Copy)]
pub enum Version {
    One,
    Two,
    Three,
}

impl Version {
    /// The kind of a record, where a file of this version may have it.
    pub fn known(self, kind: Option<Kind>) -> Option<Kind>
        ensures { result ≡ known_in self kind }
    {
        match (self, kind) {
            (Version::One, Some(Kind::Resync | Kind::Latency)) => None,
            (Version::One, Some(Kind::Event(EventKind::Pulse))) => None,
            (Version::One | Version::Two, Some(Kind::Clock | Kind::Bound)) => None,
            _ => kind,
        }
    }
}

// Whether a record is a header whose first field is this word.
fn names_columns(fields: &Fields, word: &[u8]) -> bool
    ensures { result ≡ is_header word.now fields.now }
{
    match fields.as_slice() {
        [kind, host, time, name] => {
            kind.bytes() == word
                && host.bytes() == b"host".as_slice()
                && time.bytes() == b"time".as_slice()
                && name.bytes() == b"name".as_slice()
        }
        _ => false,
    }
}

/// The version that a header tells, and None where the record is no header.
pub fn version_of(header: &Fields) -> Option<Version>
    ensures { result ≡ version_told header.now }
{
    if names_columns(header, b"kind") {
        Some(Version::One)
    } else if names_columns(header, b"skewlog2") {
        Some(Version::Two)
    } else if names_columns(header, b"skewlog3") {
        Some(Version::Three)
    } else {
        None
    }
}
