//! The kinds of records, and the words that name them.

ghost use Rattle.std.specs.Prelude.{◌≡◌};
ghost use Rattle.log_read.specs.Records.{kind_of, act_of};

use mt_model::{Act, Name};

/// What an event record tells.
#[derive(Clone, Copy)]
pub enum EventKind {
    Set,
    Clear,
    Send,
    Recv,
    Note,
    Pulse,
}

/// What a record tells: it declares a host, gives an event, resynchronises a host, states the latency
/// of what a host receives, says which clock a host reads, or bounds how much later a row is than another.
#[derive(Clone, Copy)]
pub enum Kind {
    Host,
    Event(EventKind),
    Resync,
    Latency,
    Clock,
    Bound,
}

impl Kind {
    /// The kind that a word names.
    pub fn named(word: &[u8]) -> Option<Kind>
        ensures kind { result ≡ kind_of word.now }
    {
        if word == b"host".as_slice() {
            Some(Kind::Host)
        } else if word == b"set".as_slice() {
            Some(Kind::Event(EventKind::Set))
        } else if word == b"clear".as_slice() {
            Some(Kind::Event(EventKind::Clear))
        } else if word == b"send".as_slice() {
            Some(Kind::Event(EventKind::Send))
        } else if word == b"recv".as_slice() {
            Some(Kind::Event(EventKind::Recv))
        } else if word == b"note".as_slice() {
            Some(Kind::Event(EventKind::Note))
        } else if word == b"pulse".as_slice() {
            Some(Kind::Event(EventKind::Pulse))
        } else if word == b"resync".as_slice() {
            Some(Kind::Resync)
        } else if word == b"latency".as_slice() {
            Some(Kind::Latency)
        } else if word == b"clock".as_slice() {
            Some(Kind::Clock)
        } else if word == b"bound".as_slice() {
            Some(Kind::Bound)
        } else {
            None
        }
    }
}

impl EventKind {
    /// The act of this kind with a name.
    pub fn act(self, name: Name) -> Act
        ensures act { result ≡ act_of self name }
    {
        match self {
            EventKind::Set => Act::Set(name),
            EventKind::Clear => Act::Clear(name),
            EventKind::Send => Act::Send(name),
            EventKind::Recv => Act::Recv(name),
            EventKind::Note => Act::Note(name),
            EventKind::Pulse => Act::Pulse(name),
        }
    }
}
