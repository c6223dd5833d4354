//! The keys of the objects of a log in JSON.

ghost use Rattle.std.specs.Prelude.{◌≡◌};
ghost use Rattle.json_log.specs.Keys.{word_of};

/// A key of an object of a log in JSON.
#[derive(Clone, Copy)]
pub enum Key {
    Hosts,
    Events,
    Name,
    Skew,
    Gap,
    Latency,
    Kind,
    Host,
    Time,
    Clock,
    Error,
    Later,
    Earlier,
    Most,
}

impl Key {
    /// The key itself.
    pub fn word(self) -> &'static str
        ensures { result.now ≡ word_of self }
    {
        match self {
            Key::Hosts => "hosts",
            Key::Events => "events",
            Key::Name => "name",
            Key::Skew => "skew",
            Key::Gap => "gap",
            Key::Latency => "latency",
            Key::Kind => "kind",
            Key::Host => "host",
            Key::Time => "time",
            Key::Clock => "clock",
            Key::Error => "error",
            Key::Later => "later",
            Key::Earlier => "earlier",
            Key::Most => "most",
        }
    }
}
