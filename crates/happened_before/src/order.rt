//! The order that vector clocks tell.

ghost use Rattle.std.specs.Prelude.{◌≡◌, ◌↔◌, ◌<◌, ℕ, length, map, slice_index, IsTrue, IfErr, IfOk, OnOk};
ghost use Rattle.mt_model.specs.Before.{Before};
ghost use Rattle.mt_model.specs.Log.{Logged};
ghost use Rattle.happened_before.specs.Order.{IfCycle, IsAcyclic, IsClock, IsCycle, IsCyclic, IsInPast, IsOrderOf, clock_of, event_count};

use crate::causes::{causes_of, first_waiting};
use crate::cycle::cycle;
use crate::progress::{Clock, Progress, finish_all};
use mt_model::{EventId, HostId, Log, Walk, previous_row_is_last};
use std::alloc::{AllocError, Global};
use std::marker::Model;

/// Why a log's events have no order.
#[derive(Drop)]
pub enum OrderFault {
    /// Events, each directly before the next and the last directly before the first, none of them
    /// twice. Directly before an event are the previous one of its host, and the send of the message
    /// that it receives.
    Cycle(Walk),
    /// Want of memory.
    Memory,
}

/// The happened-before order of a log's events (Lamport 1978), told by their vector clocks (Fidge
/// 1988, Mattern 1989).
#[derive(Drop)]
pub struct Order {
    hosts: Vec<HostId>,
    clocks: Vec<Clock>,
}

impl Model for Order {
    ghost use Rattle.happened_before.specs.Order.{CoversHosts, Ordered};

    ghost Value = { Ordered };

    ghost view = { λ o. record { hosts = o.hosts.items; clocks = o.clocks.items } };

    ghost invariant = { λ o. CoversHosts o.hosts.items o.clocks.items };
}

impl From<AllocError> for OrderFault {
    ghost use Rattle.std.specs.Prelude.{◌≡◌};
    ghost use Rattle.happened_before.specs.declared.order.OrderFault.TheVariants.{Memory};

    ghost from_gives = { λ _ f. f ≡ Memory };

    fn from(_: AllocError) -> Self {
        OrderFault::Memory
    }
}

// The host of each row of a log.
fn hosts_of(alloc: Global, log: &Log) -> Result<Vec<HostId>, AllocError>
    ensures { IfOk result (λ hosts. hosts.items ≡ map (λ r. r.host) log.now.rows) }
{
    log.rows().iter().map(|row| row.host).collect(alloc)
}

impl Order {
    /// The order of a log's events, which keeps one number per event and host.
    pub fn build(alloc: Global, log: &Log) -> Result<Order, OrderFault>
        ensures order { IfOk result (IsOrderOf log.now) }
        ensures cycle { IfErr result (λ fault. IfCycle fault (IsCycle log.now)) }

        // So Cycle comes exactly where some event happens before itself, unless memory runs out.
        ensures acyclic { OnOk result (IsAcyclic log.now) }
        ensures cyclic { IfErr result (λ fault. IfCycle fault (λ _. IsCyclic log.now)) }
    {
        previous_row_is_last();
        let hosts = hosts_of(alloc, log)?;
        let table = causes_of(alloc, log)?;
        let progress = finish_all(alloc, log.hosts().len(), &hosts, &table)?;
        let Progress { finished, clocks } = progress;
        match first_waiting(&finished) {
            Some(e) => Err(OrderFault::Cycle(cycle(alloc, &table, &finished, e)?)),
            None => Ok(Order { hosts, clocks }),
        }
    }

    /// How many events there are.
    pub fn events(&self) -> usize
        ensures count { result ≡ event_count self.now }
    {
        self.clocks.len()
    }

    /// Whether event e happens before event f. Takes no memory.
    pub fn before(&self, e: EventId, f: EventId) -> bool
        requires first { e < event_count self.now }
        requires second { f < event_count self.now }
        ensures before { (log : Logged) → IsOrderOf log self.now → (IsTrue result ↔ Before log e f) }
    {
        e != f && self.counts(f, e)
    }

    /// The clock of event e: for each host, in the order of the hosts, how many of its rows are e or
    /// happen before e. Takes no memory.
    pub fn clock(&self, e: EventId) -> &[u32]
        requires { e < event_count self.now }
        ensures value { result.now ≡ clock_of self.now e }
        ensures clock { (log : Logged) → IsOrderOf log self.now → IsClock log e result.now }
    {
        self.clocks[e.get() as usize].as_slice()
    }

    // Whether f's clock counts e, which is f itself or happens before it.
    fn counts(&self, f: EventId, e: EventId) -> bool
        requires first { f < event_count self.now }
        requires second { e < event_count self.now }
        ensures counts { (log : Logged) → IsOrderOf log self.now → (IsTrue result ↔ IsInPast log e f) }
    {
        previous_row_is_last();
        let host = self.host(e);
        self.clock(e)[host] <= self.clock(f)[host]
    }

    // The host of an event, which has a number in each clock.
    fn host(&self, e: EventId) -> usize
        requires { e < event_count self.now }
        ensures host { result ≡ slice_index self.now.hosts e }
        ensures within { (f : ℕ) → f < event_count self.now → result < length (clock_of self.now f) }
    {
        self.hosts[e.get() as usize].get() as usize
    }
}
