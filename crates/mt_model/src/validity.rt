//! When hosts, rows, resyncs, clocks, readings and extra bounds make a valid log.

ghost use Rattle.std.specs.Prelude.{◌≡◌, ◌↔◌, ◌≤◌, length, IsTrue, IfSome, Any, Some, All, AllPairs};
ghost use Rattle.mt_model.specs.Log.{IsLog, IsHost, HasDelays, IsRow, IsExtra, AreRows, SendSame, IsSent, logged, received_by};

use crate::causes::sends;
use crate::name::is_reserved_name;
use crate::reading::{are_clock_names, are_readings};
use crate::resync::are_resyncs;
use crate::{
    Extra, Host, MAX_DELAY, MAX_EXTRA, MAX_EXTRAS, MAX_GAP, MAX_HOSTS, MAX_LOCAL, MAX_ROWS,
    MAX_SKEW, MIN_DELAY, Name, Reading, Resync, Row,
};

// Whether the delays of what a host receives are in their range, the greatest not below the least.
fn has_delays(host: &Host) -> bool
    ensures { IsTrue result ↔ HasDelays host.now }
{
    MIN_DELAY <= host.least
        && host.least <= MAX_DELAY
        && host
            .most
            .is_none_or(|most| host.least <= most && most <= MAX_DELAY)
}

fn is_host(host: &Host) -> bool
    ensures { IsTrue result ↔ IsHost host.now }
{
    !is_reserved_name(&host.name)
        && 0 <= host.skew
        && host.skew <= MAX_SKEW
        && 0 <= host.gap
        && host.gap <= MAX_GAP
        && has_delays(host)
}

fn is_row(row: &Row, hosts: usize) -> bool
    ensures { IsTrue result ↔ IsRow hosts row.now }
{
    // What a name is, its bytes are known to be.
    let _ = row.act.name().bytes();
    (row.host.get() as usize) < hosts && -MAX_LOCAL <= row.local && row.local <= MAX_LOCAL
}

fn is_named(hosts: &[Host], name: &[u8]) -> bool
    ensures { IsTrue result ↔ Any (λ h. h.name ≡ name.now) hosts.now }
{
    hosts.iter().any(|h| h.name.bytes() == name)
}

fn names_differ(hosts: &[Host]) -> bool
    ensures { IsTrue result ↔ AllPairs (λ g h. h.name ≡ g.name → ⊥) hosts.now }
{
    for (i, host) in hosts.iter().enumerate() {
        if is_named(&hosts[i + 1..], host.name.bytes()) {
            return false;
        }
    }
    true
}

fn is_sent(rows: &[Row], message: &[u8]) -> bool
    ensures { IsTrue result ↔ IsSent rows.now message.now }
{
    rows.iter().any(|row| sends(row, message))
}

// Whether one of the rows sends what a row sends.
fn repeats(row: &Row, rest: &[Row]) -> bool
    ensures { IsTrue result ↔ Any (λ r. SendSame row.now r) rest.now }
{
    match row.act.sent() {
        Some(message) => is_sent(rest, message.bytes()),
        None => false,
    }
}

fn sent_once(rows: &[Row]) -> bool
    ensures { IsTrue result ↔ AllPairs (λ q r. SendSame q r → ⊥) rows.now }
{
    for (i, row) in rows.iter().enumerate() {
        if repeats(row, &rows[i + 1..]) {
            return false;
        }
    }
    true
}

fn all_sent(rows: &[Row]) -> bool
    ensures { IsTrue result ↔ All (λ r. IfSome (received_by r.act) (IsSent rows.now)) rows.now }
{
    rows.iter().all(|row| match row.act.received() {
        Some(message) => is_sent(rows, message.bytes()),
        None => true,
    })
}

fn are_rows(hosts: usize, rows: &[Row]) -> bool
    ensures { IsTrue result ↔ AreRows hosts rows.now }
{
    let each = rows.iter().all(|row| is_row(row, hosts));
    let once = sent_once(rows);
    let sent = all_sent(rows);
    each && once && sent
}

// Whether a log may have so many hosts and rows.
fn are_few(hosts: &[Host], rows: &[Row]) -> bool
    ensures { IsTrue result ↔ ((1 ≤ length hosts.now) × (length hosts.now ≤ MAX_HOSTS) × (1 ≤ length rows.now) × (length rows.now ≤ MAX_ROWS)) }
{
    !hosts.is_empty() && hosts.len() <= MAX_HOSTS && !rows.is_empty() && rows.len() <= MAX_ROWS
}

// Whether each host is one, and no two have one name.
fn are_hosts(hosts: &[Host]) -> bool
    ensures { IsTrue result ↔ (AllPairs (λ g h. h.name ≡ g.name → ⊥) hosts.now × All IsHost hosts.now) }
{
    let each = hosts.iter().all(is_host);
    each && names_differ(hosts)
}

/// Whether this can be an extra bound of a log of so many rows.
pub fn is_extra(extra: &Extra, rows: usize) -> bool
    ensures { IsTrue result ↔ IsExtra rows extra.now }
{
    (extra.e.get() as usize) < rows
        && (extra.f.get() as usize) < rows
        && extra.e != extra.f
        && -MAX_EXTRA <= extra.c
        && extra.c <= MAX_EXTRA
}

fn are_extras(extras: &[Extra], rows: usize) -> bool
    ensures { IsTrue result ↔ ((length extras.now ≤ MAX_EXTRAS) × All (IsExtra rows) extras.now) }
{
    let each = extras.iter().all(|extra| is_extra(extra, rows));
    extras.len() <= MAX_EXTRAS && each
}

/// Whether these make a valid log.
pub fn is_valid(
    hosts: &[Host],
    rows: &[Row],
    resyncs: &[Resync],
    clocks: &[Name],
    readings: &[Reading],
    extras: &[Extra],
) -> bool
    ensures { IsTrue result ↔ IsLog (logged hosts.now rows.now resyncs.now clocks.now readings.now extras.now) }
{
    let are_few = are_few(hosts, rows);
    let are_hosts = are_hosts(hosts);
    let are_rows = are_rows(hosts.len(), rows);
    let are_resyncs = are_resyncs(hosts.len(), rows.len(), resyncs);
    let are_clock_names = are_clock_names(clocks);
    let are_readings = are_readings(hosts.len(), rows.len(), clocks.len(), readings);
    let are_extras = are_extras(extras, rows.len());
    are_few && are_hosts && are_rows && are_resyncs && are_clock_names && are_readings && are_extras
}
