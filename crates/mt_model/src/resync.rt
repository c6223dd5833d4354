//! Resyncs, and when those of a log are valid.

ghost use Rattle.std.specs.Prelude.{◌↔◌, ◌≤◌, IsTrue, AllPairs};
ghost use Rattle.mt_model.specs.Log.{IsResync, AreResyncs};

use crate::{HostId, MAX_GAP, MAX_SKEW};
use mt_list::ListOf;

/// A change of a host's clock: from the row at this place on, the clock may be off by this skew, and each of
/// the host's rows comes at least this gap after the one before it, both in the log's unit of time. The place
/// is the number of rows that stand before the resync.
#[derive(Clone, Copy, PartialEq, Eq)]
pub struct Resync {
    pub place: u32,
    pub host: HostId,
    pub skew: i128,
    pub gap: i128,
}

/// Resyncs in the order of the log.
pub type ResyncList = ListOf<Resync>;

fn is_resync(resync: &Resync, hosts: usize, rows: usize) -> bool
    ensures { IsTrue result ↔ IsResync hosts rows resync.now }
{
    (resync.host.get() as usize) < hosts
        && (resync.place as usize) <= rows
        && 0 <= resync.skew
        && resync.skew <= MAX_SKEW
        && 0 <= resync.gap
        && resync.gap <= MAX_GAP
}

// Whether no place is below the one before it.
fn in_order(resyncs: &[Resync]) -> bool
    ensures { IsTrue result ↔ AllPairs (λ q r. q.place ≤ r.place) resyncs.now }
{
    let mut least = 0;
    for resync in resyncs {
        if resync.place < least {
            return false;
        }
        least = resync.place;
    }
    true
}

/// Whether these can be the resyncs of a log of so many hosts and rows.
pub fn are_resyncs(hosts: usize, rows: usize, resyncs: &[Resync]) -> bool
    ensures { IsTrue result ↔ AreResyncs hosts rows resyncs.now }
{
    let each = resyncs.iter().all(|resync| is_resync(resync, hosts, rows));
    let in_order = in_order(resyncs);
    each && in_order
}
