//! Skews that grow.

ghost use Rattle.std.specs.Prelude.{◌≡◌, ◌↔◌, IsTrue, All, map, pos, ◌+ℤ◌, ◌≤ℤ◌};
ghost use Rattle.mt_model.specs.Log.{IsHost, IsWithin, widened_host, widened_resync};

use crate::{Host, HostList, MAX_SKEW, Resync, ResyncList};
use mt_list::ListOf;

// Whether a skew stays in its range when it grows by s.
fn may_widen(skew: i128, s: i128) -> bool
    requires { pos 0 ≤ℤ s }
    ensures { IsTrue result ↔ ((skew +ℤ s) ≤ℤ MAX_SKEW) }
{
    skew <= MAX_SKEW - s
}

fn may_widen_hosts(hosts: &[Host], s: i128) -> bool
    requires { pos 0 ≤ℤ s }
    ensures { IsTrue result ↔ All (λ h. (h.skew +ℤ s) ≤ℤ MAX_SKEW) hosts.now }
{
    hosts.iter().all(|host| may_widen(host.skew, s))
}

fn may_widen_resyncs(resyncs: &[Resync], s: i128) -> bool
    requires { pos 0 ≤ℤ s }
    ensures { IsTrue result ↔ All (λ r. (r.skew +ℤ s) ≤ℤ MAX_SKEW) resyncs.now }
{
    resyncs.iter().all(|resync| may_widen(resync.skew, s))
}

/// Whether each skew of hosts and of resyncs stays in its range when it grows by s.
pub fn may_widen_all(hosts: &[Host], resyncs: &[Resync], s: i128) -> bool
    requires { pos 0 ≤ℤ s }
    ensures { IsTrue result ↔ (All (λ h. (h.skew +ℤ s) ≤ℤ MAX_SKEW) hosts.now × All (λ r. (r.skew +ℤ s) ≤ℤ MAX_SKEW) resyncs.now) }
{
    may_widen_hosts(hosts, s) && may_widen_resyncs(resyncs, s)
}

// Adds s to a skew.
fn widen_host(host: &mut Host, s: i128)
    requires low { pos 0 ≤ℤ s }
    requires small { s ≤ℤ MAX_SKEW }
    requires skew { IsHost host.old }
    ensures { host.new ≡ widened_host s host.old }
{
    host.skew += s;
}

// Adds s to each host's skew.
fn widen_hosts(hosts: &mut [Host], s: i128)
    requires low { pos 0 ≤ℤ s }
    requires small { s ≤ℤ MAX_SKEW }
    requires hosts { All IsHost hosts.old }
    ensures { hosts.new ≡ map (widened_host s) hosts.old }
{
    for host in hosts.iter_mut() {
        widen_host(host, s);
    }
}

/// The hosts with s added to each skew.
pub fn widened_hosts(hosts: HostList, s: i128) -> HostList
    requires low { pos 0 ≤ℤ s }
    requires small { s ≤ℤ MAX_SKEW }
    requires hosts { All IsHost hosts }
    ensures { result ≡ map (widened_host s) hosts }
{
    let mut items = hosts.into_vec();
    widen_hosts(&mut items, s);
    ListOf::from_vec(items)
}

// Adds s to the skew of a resync.
fn widen_resync(resync: &mut Resync, s: i128)
    requires low { pos 0 ≤ℤ s }
    requires small { s ≤ℤ MAX_SKEW }
    requires skew { IsWithin MAX_SKEW resync.old.skew }
    ensures { resync.new ≡ widened_resync s resync.old }
{
    resync.skew += s;
}

// Adds s to the skew of each resync.
fn widen_resyncs(resyncs: &mut [Resync], s: i128)
    requires low { pos 0 ≤ℤ s }
    requires small { s ≤ℤ MAX_SKEW }
    requires skews { All (λ r. IsWithin MAX_SKEW r.skew) resyncs.old }
    ensures { resyncs.new ≡ map (widened_resync s) resyncs.old }
{
    for resync in resyncs.iter_mut() {
        widen_resync(resync, s);
    }
}

/// The resyncs with s added to each skew.
pub fn widened_resyncs(resyncs: ResyncList, s: i128) -> ResyncList
    requires low { pos 0 ≤ℤ s }
    requires small { s ≤ℤ MAX_SKEW }
    requires skews { All (λ r. IsWithin MAX_SKEW r.skew) resyncs }
    ensures { result ≡ map (widened_resync s) resyncs }
{
    let mut items = resyncs.into_vec();
    widen_resyncs(&mut items, s);
    ListOf::from_vec(items)
}
