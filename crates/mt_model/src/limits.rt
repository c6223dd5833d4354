//! The limits of logs, timings and formulas, in one place. Times, skews, gaps, delays and bounds are in the
//! log's one unit of time.

/// The most bytes of a name.
pub const MAX_NAME_LENGTH: usize = 32;

/// The most hosts of a log.
pub const MAX_HOSTS: usize = 64;

/// The most rows of a log.
pub const MAX_ROWS: usize = 1024;

/// The most clocks of a log.
pub const MAX_CLOCKS: usize = 1024;

/// The most extra bounds of a log.
pub const MAX_EXTRAS: usize = 1_048_576;

/// The most extra bounds that a log file may state, which leaves room for one more.
pub const MAX_WRITTEN_EXTRAS: usize = 1_048_575;

/// The greatest magnitude of a local time.
pub const MAX_LOCAL: i128 = 4_000_000_000_000_000_000;

/// The greatest skew that a log file may state.
pub const MAX_WRITTEN_SKEW: i128 = 1_000_000_000_000_000_000;

/// The greatest skew of a host, a log with widened skews included.
pub const MAX_SKEW: i128 = 2_000_000_000_000_000_000;

/// The greatest gap of a host.
pub const MAX_GAP: i128 = 1_000_000_000_000_000_000;

/// The greatest error of a reading.
pub const MAX_ERROR: i128 = 1_000_000_000_000_000_000;

/// The least delay that a message may have, which is that of a host without a latency of its own.
pub const MIN_DELAY: u64 = 1;

/// The greatest delay that a latency may state.
pub const MAX_DELAY: u64 = 1_000_000_000_000_000_000;

/// The greatest magnitude of an extra bound.
pub const MAX_EXTRA: i128 = 100_000_000_000_000_000_000;

/// The greatest magnitude of the bound of an order step.
pub const MAX_ORDER: i128 = 1_000_000_000_000_000_000_000;

/// The greatest height of a formula, whose leaves have height 1.
pub const MAX_HEIGHT: u32 = 200;

/// One more than the most propositions of a formula.
pub const TOO_MANY_PROPOSITIONS: u32 = 2_147_483_648;

/// The greatest bound of an interval.
pub const MAX_DISTANCE: u64 = 1_000_000_000_000_000_000;

/// The greatest magnitude of a true time in a file of times or a report. Each time of a timing that a log admits is
/// nearer to 0.
pub const MAX_TIME: i128 = 10_000_000_000_000_000_000;
