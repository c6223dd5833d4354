//! Latencies: how long what a host receives took.

ghost use Rattle.std.specs.Prelude.{◌≡◌, ◌<◌, ◌+◌, map, option_copied};
ghost use Rattle.mt_model.specs.declared.limits.TheConstants.{MAX_DELAY};
ghost use Rattle.log_read.specs.Records.{delayed as delayed_host, delay_in, greatest_in, latency_of, least_in};

use crate::fields::Field;
use decimal::number;
use mt_list::ListOf;
use mt_model::{Host, HostList, MAX_DELAY, MIN_DELAY};

/// Every message that the host of this name receives took from the least delay to the greatest, where
/// there is one, in the log's unit of time.
#[derive(Drop)]
pub struct Latency {
    pub host: Field,
    pub least: u64,
    pub most: Option<u64>,
}

/// Latencies in the order of their file.
pub type LatencyList = ListOf<Latency>;

/// One more than the greatest delay that a latency may state.
const DELAYS: u128 = MAX_DELAY as u128 + 1;

fn delay_of(field: &[u8]) -> Option<u64>
    ensures { result ≡ delay_in field.now }
{
    match number(field, DELAYS) {
        Some(delay) => Some(delay as u64),
        None => None,
    }
}

/// The least delay that a field states.
pub fn least_of(field: &[u8]) -> Option<u64>
    ensures least { result ≡ least_in field.now }
{
    match delay_of(field) {
        Some(least) if MIN_DELAY <= least => Some(least),
        _ => None,
    }
}

/// The greatest delay that a field states, which is none where the field says that there is none.
pub fn greatest_of(field: &[u8]) -> Option<Option<u64>>
    ensures greatest { result ≡ greatest_in field.now }
{
    if field == b"inf".as_slice() {
        return Some(None);
    }
    match delay_of(field) {
        Some(most) => Some(Some(most)),
        None => None,
    }
}

fn latency_for<'a>(latencies: &'a [Latency], host: &[u8]) -> Option<&'a Latency>
    ensures { option_copied result ≡ latency_of latencies.now host.now }
{
    latencies
        .iter()
        .find(|latency| latency.host.bytes() == host)
}

// Gives a host the delays that are stated of it.
fn delay(host: &mut Host, latencies: &[Latency])
    ensures { host.new ≡ delayed_host latencies.now host.old }
{
    if let Some(latency) = latency_for(latencies, host.name.bytes()) {
        host.least = latency.least;
        host.most = latency.most;
    }
}

fn delay_all(hosts: &mut [Host], latencies: &[Latency])
    ensures { hosts.new ≡ map (delayed_host latencies.now) hosts.old }
{
    for host in hosts.iter_mut() {
        delay(host, latencies);
    }
}

/// The hosts with the delays that are stated of them.
pub fn delayed(hosts: HostList, latencies: &[Latency]) -> HostList
    ensures hosts { result ≡ map (delayed_host latencies.now) hosts }
{
    let mut items = hosts.into_vec();
    delay_all(&mut items, latencies);
    ListOf::from_vec(items)
}
