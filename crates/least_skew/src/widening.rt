//! Logs with all their skews widened.

ghost use Rattle.std.specs.Prelude.{◌≡◌, ◌≤◌, IfOk};
ghost use Rattle.least_skew.specs.Least.{HasWrittenSkews, wide};
ghost use Rattle.least_skew.specs.declared.widening.TheConstants.{MAX_WIDENING};

use mt_model::Log;
use std::alloc::{AllocError, Global};

/// The greatest widening, in the log's unit of time.
pub const MAX_WIDENING: u64 = 1_000_000_000_000_000_000;

/// A log with all its skews widened by s.
#[derive(Drop)]
pub struct WideLog {
    pub s: u64,
    pub log: Log,
}

/// The log with s added to each skew, in memory of its own.
pub fn widened(alloc: Global, log: &Log, s: u64) -> Result<WideLog, AllocError>
    requires range { s ≤ MAX_WIDENING }
    requires skews { HasWrittenSkews log.now }
    ensures by { IfOk result (λ there. there.s ≡ s) }
    ensures wide { IfOk result (λ there. there.log ≡ wide s log.now) }
{
    let log = log.copy(alloc)?.widened(s as i128);
    Ok(WideLog { s, log })
}
