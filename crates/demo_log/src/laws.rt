//! What holds of the log of each seed.

ghost use Rattle.demo_log.specs.DemoLog.{SeedsAreConsistent, SeedsHaveLogs};

/// Each seed has a valid log.
pub fn seeds_have_logs()
    ensures logs { SeedsHaveLogs }
{}

/// The log of each seed admits its local times.
pub fn seeds_are_consistent()
    ensures consistent { SeedsAreConsistent }
{}
