//! Logs: hosts, rows, resyncs, clocks and extra bounds that fit together, and how a log is copied, bounded further or
//! widened.

ghost use Rattle.std.specs.Prelude.{◌≡◌, ◌↔◌, IsTrue, IsSome, IfSome, IfOk, IfErr, option_copied, Some, All, pos, ◌+ℤ◌, ◌≤ℤ◌};
ghost use Rattle.mt_model.specs.Log.{Logged, IsLog, MayWiden, logged, log_with, plain_log, IsPlain, name_in, sent_by, received_by, with_extra, widened};
ghost use Rattle.mt_model.specs.State.{host_named};

use crate::validity::{is_extra, is_valid};
use crate::widening::{may_widen_all, widened_hosts, widened_resyncs};
use crate::{
    EventId, HostId, MAX_EXTRAS, MAX_SKEW, MAX_WRITTEN_EXTRAS, MAX_WRITTEN_SKEW, Name, NameList,
    Reading, ReadingList, Resync, ResyncList,
};
use mt_list::ListOf;
use std::alloc::{AllocError, Global};
use std::marker::Model;

/// A host of a log: its clock may be off by the skew, and each of its rows comes at least the gap after the
/// one before it, until it is resynchronised. A message that it receives took at least the least delay and,
/// where there is a greatest, at most that. All are in the log's unit of time.
#[derive(Drop)]
pub struct Host {
    pub name: Name,
    pub skew: i128,
    pub gap: i128,
    pub least: u64,
    pub most: Option<u64>,
}

/// What happened at a row.
#[derive(Drop)]
pub enum Act {
    /// A proposition of the host becomes true.
    Set(Name),
    /// A proposition of the host becomes false.
    Clear(Name),
    /// A message is sent.
    Send(Name),
    /// A message is received.
    Recv(Name),
    /// An event without effect.
    Note(Name),
    /// A proposition of the host is true at this row's instant.
    Pulse(Name),
}

/// One event of a log: on which host, at what time by its clock, in the log's unit, and what happened.
#[derive(Drop)]
pub struct Row {
    pub host: HostId,
    pub local: i128,
    pub act: Act,
}

/// The extra bound `t_e - t_f <= c` on the true times of two rows; c is in the log's unit of time.
#[derive(Clone, Copy, PartialEq, Eq)]
pub struct Extra {
    pub e: EventId,
    pub f: EventId,
    pub c: i128,
}

/// Hosts in the order of their declaration.
pub type HostList = ListOf<Host>;

/// Rows in the order of the log.
pub type RowList = ListOf<Row>;

/// Extra bounds in order.
pub type ExtraList = ListOf<Extra>;

/// A valid log, which contracts see as its hosts, rows, resyncs, clocks, readings and extra bounds.
///
/// It has 1 to 64 hosts of distinct names, none of them `true`, `false` or `inf`, and 1 to 1,024 rows
/// of them. No message is sent twice, and each one that is received is sent. The places of resyncs do not
/// fall, and those of readings neither. It has at most 1,024 clocks of distinct names, each of which is read,
/// in the order in which they are first read, and at most 1,048,576 extra bounds. Skews, errors, gaps, delays,
/// local times and extra bounds are in the ranges that this crate's constants state.
#[derive(Drop)]
pub struct Log {
    hosts: HostList,
    rows: RowList,
    resyncs: ResyncList,
    clocks: NameList,
    readings: ReadingList,
    extras: ExtraList,
}

impl Model for Log {
    ghost use Rattle.mt_model.specs.Log.{Logged, IsLog};

    ghost Value = { Logged };

    ghost view = { λ l. record { hosts = l.hosts; rows = l.rows; resyncs = l.resyncs; clocks = l.clocks; readings = l.readings; extras = l.extras } };

    ghost invariant = { λ l. IsLog (record { hosts = l.hosts; rows = l.rows; resyncs = l.resyncs; clocks = l.clocks; readings = l.readings; extras = l.extras }) };
}

impl Act {
    // An equal act.
    fn copy(&self, alloc: Global) -> Result<Act, AllocError>
        ensures { IfOk result (λ act. act ≡ self.now) }
    {
        match self {
            Act::Set(name) => Ok(Act::Set(name.copy(alloc)?)),
            Act::Clear(name) => Ok(Act::Clear(name.copy(alloc)?)),
            Act::Send(name) => Ok(Act::Send(name.copy(alloc)?)),
            Act::Recv(name) => Ok(Act::Recv(name.copy(alloc)?)),
            Act::Note(name) => Ok(Act::Note(name.copy(alloc)?)),
            Act::Pulse(name) => Ok(Act::Pulse(name.copy(alloc)?)),
        }
    }

    /// The name in it: that of a proposition, of a message or of a note.
    pub fn name(&self) -> &Name
        ensures name { result.now ≡ name_in self.now }
    {
        match self {
            Act::Set(name)
            | Act::Clear(name)
            | Act::Send(name)
            | Act::Recv(name)
            | Act::Note(name)
            | Act::Pulse(name) => name,
        }
    }

    /// The message that it sends.
    pub fn sent(&self) -> Option<&Name>
        ensures message { option_copied result ≡ sent_by self.now }
    {
        match self {
            Act::Send(message) => Some(message),
            Act::Set(_) | Act::Clear(_) | Act::Recv(_) | Act::Note(_) | Act::Pulse(_) => None,
        }
    }

    /// The message that it receives.
    pub fn received(&self) -> Option<&Name>
        ensures message { option_copied result ≡ received_by self.now }
    {
        match self {
            Act::Recv(message) => Some(message),
            Act::Set(_) | Act::Clear(_) | Act::Send(_) | Act::Note(_) | Act::Pulse(_) => None,
        }
    }
}

impl Host {
    // An equal host.
    fn copy(&self, alloc: Global) -> Result<Host, AllocError>
        ensures { IfOk result (λ host. host ≡ self.now) }
    {
        Ok(Host {
            name: self.name.copy(alloc)?,
            skew: self.skew,
            gap: self.gap,
            least: self.least,
            most: self.most,
        })
    }
}

impl Row {
    // An equal row.
    fn copy(&self, alloc: Global) -> Result<Row, AllocError>
        ensures { IfOk result (λ row. row ≡ self.now) }
    {
        Ok(Row {
            host: self.host,
            local: self.local,
            act: self.act.copy(alloc)?,
        })
    }
}

// Whether no skew is above the greatest that a log file may state.
fn are_written(hosts: &[Host], resyncs: &[Resync]) -> bool
    ensures { IsTrue result ↔ (All (λ h. h.skew ≤ℤ MAX_WRITTEN_SKEW) hosts.now × All (λ r. r.skew ≤ℤ MAX_WRITTEN_SKEW) resyncs.now) }
{
    let declared = hosts.iter().all(|host| host.skew <= MAX_WRITTEN_SKEW);
    let later = resyncs.iter().all(|resync| resync.skew <= MAX_WRITTEN_SKEW);
    declared && later
}

fn copy_hosts(alloc: Global, hosts: &[Host]) -> Result<HostList, AllocError>
    ensures { IfOk result (λ list. list ≡ hosts.now) }
{
    let mut list = HostList::new(alloc);
    for host in hosts {
        list.push(host.copy(alloc)?)?;
    }
    Ok(list)
}

fn copy_rows(alloc: Global, rows: &[Row]) -> Result<RowList, AllocError>
    ensures { IfOk result (λ list. list ≡ rows.now) }
{
    let mut list = RowList::new(alloc);
    for row in rows {
        list.push(row.copy(alloc)?)?;
    }
    Ok(list)
}

fn copy_resyncs(alloc: Global, resyncs: &[Resync]) -> Result<ResyncList, AllocError>
    ensures { IfOk result (λ list. list ≡ resyncs.now) }
{
    Ok(ResyncList::from_vec(resyncs.to_vec(alloc)?))
}

fn copy_clocks(alloc: Global, clocks: &[Name]) -> Result<NameList, AllocError>
    ensures { IfOk result (λ list. list ≡ clocks.now) }
{
    let mut list = NameList::new(alloc);
    for clock in clocks {
        list.push(clock.copy(alloc)?)?;
    }
    Ok(list)
}

fn copy_readings(alloc: Global, readings: &[Reading]) -> Result<ReadingList, AllocError>
    ensures { IfOk result (λ list. list ≡ readings.now) }
{
    Ok(ReadingList::from_vec(readings.to_vec(alloc)?))
}

fn copy_extras(alloc: Global, extras: &[Extra]) -> Result<ExtraList, AllocError>
    ensures { IfOk result (λ list. list ≡ extras.now) }
{
    Ok(ExtraList::from_vec(extras.to_vec(alloc)?))
}

impl Log {
    /// The log of these hosts and rows, without resyncs, clocks and extra bounds, and None exactly where
    /// they make no valid log. Takes no memory.
    pub fn build(hosts: HostList, rows: RowList) -> Option<Log>
        ensures valid { IsSome result ↔ IsLog (plain_log hosts rows) }
        ensures log { IfSome result (λ l. l ≡ plain_log hosts rows) }
    {
        let resyncs = ListOf::new(hosts.allocator());
        Log::build_with(hosts, rows, resyncs)
    }

    /// The log of these hosts, rows and resyncs, without clocks and extra bounds, and None exactly where
    /// they make no valid log. Takes no memory.
    pub fn build_with(hosts: HostList, rows: RowList, resyncs: ResyncList) -> Option<Log>
        ensures valid { IsSome result ↔ IsLog (log_with hosts rows resyncs) }
        ensures log { IfSome result (λ l. l ≡ log_with hosts rows resyncs) }
    {
        let alloc = hosts.allocator();
        Log::build_read(
            hosts,
            rows,
            resyncs,
            ListOf::new(alloc),
            ListOf::new(alloc),
            ListOf::new(alloc),
        )
    }

    /// The log of these hosts, rows, resyncs, clocks by their names, readings of them and extra bounds,
    /// and None exactly where they make no valid log. Takes no memory.
    pub fn build_read(
        hosts: HostList,
        rows: RowList,
        resyncs: ResyncList,
        clocks: NameList,
        readings: ReadingList,
        extras: ExtraList,
    ) -> Option<Log>
        ensures valid { IsSome result ↔ IsLog (logged hosts rows resyncs clocks readings extras) }
        ensures log { IfSome result (λ l. l ≡ logged hosts rows resyncs clocks readings extras) }
    {
        if is_valid(
            hosts.as_slice(),
            rows.as_slice(),
            resyncs.as_slice(),
            clocks.as_slice(),
            readings.as_slice(),
            extras.as_slice(),
        ) {
            Some(Log {
                hosts,
                rows,
                resyncs,
                clocks,
                readings,
                extras,
            })
        } else {
            None
        }
    }

    /// The hosts in the order of their declaration.
    pub fn hosts(&self) -> &[Host]
        ensures valid { IsLog self.now }
        ensures same { result.now ≡ self.now.hosts }
    {
        self.hosts.as_slice()
    }

    /// The rows in order.
    pub fn rows(&self) -> &[Row]
        ensures valid { IsLog self.now }
        ensures same { result.now ≡ self.now.rows }
    {
        self.rows.as_slice()
    }

    /// The resyncs in order. Takes no memory.
    pub fn resyncs(&self) -> &[Resync]
        ensures valid { IsLog self.now }
        ensures same { result.now ≡ self.now.resyncs }
    {
        self.resyncs.as_slice()
    }

    /// The names of the clocks, in the order in which they are first read. Takes no memory.
    pub fn clocks(&self) -> &[Name]
        ensures valid { IsLog self.now }
        ensures same { result.now ≡ self.now.clocks }
    {
        self.clocks.as_slice()
    }

    /// The readings in order. Takes no memory.
    pub fn readings(&self) -> &[Reading]
        ensures valid { IsLog self.now }
        ensures same { result.now ≡ self.now.readings }
    {
        self.readings.as_slice()
    }

    /// The extra bounds in order.
    pub fn extras(&self) -> &[Extra]
        ensures valid { IsLog self.now }
        ensures same { result.now ≡ self.now.extras }
    {
        self.extras.as_slice()
    }

    /// The place of the host of a name among the hosts, from 0, and None where the log has none. Takes
    /// no memory.
    pub fn host_named(&self, name: &Name) -> Option<usize>
        ensures host { result ≡ host_named self.now name.now }
    {
        self.hosts()
            .iter()
            .position(|host| host.name.bytes() == name.bytes())
    }

    /// An equal log, in memory of its own.
    pub fn copy(&self, alloc: Global) -> Result<Log, AllocError>
        ensures same { IfOk result (λ log. log ≡ self.now) }
    {
        let hosts = copy_hosts(alloc, self.hosts.as_slice())?;
        let rows = copy_rows(alloc, self.rows.as_slice())?;
        let resyncs = copy_resyncs(alloc, self.resyncs.as_slice())?;
        let clocks = copy_clocks(alloc, self.clocks.as_slice())?;
        let readings = copy_readings(alloc, self.readings.as_slice())?;
        let extras = copy_extras(alloc, self.extras.as_slice())?;
        Ok(Log {
            hosts,
            rows,
            resyncs,
            clocks,
            readings,
            extras,
        })
    }

    /// Whether the log with this extra bound is valid: its ends are two rows of the log, its bound is
    /// in its range, and there is room for one more.
    pub fn takes_extra(&self, extra: Extra) -> bool
        ensures valid { IsTrue result ↔ IsLog (with_extra self.now extra) }
    {
        self.extras.len() < MAX_EXTRAS && is_extra(&extra, self.rows.len())
    }

    /// The log with one extra bound more, at the end. An error is want of memory and hands the log back
    /// as it was.
    pub fn with_extra(self, extra: Extra) -> Result<Log, Log>
        requires { IsLog (with_extra self extra) }
        ensures ok { IfOk result (λ log. log ≡ with_extra self extra) }
        ensures err { IfErr result (λ log. log ≡ self) }
    {
        let Log {
            hosts,
            rows,
            resyncs,
            clocks,
            readings,
            mut extras,
        } = self;
        match extras.push(extra) {
            Ok(()) => Ok(Log {
                hosts,
                rows,
                resyncs,
                clocks,
                readings,
                extras,
            }),
            Err(_) => Err(Log {
                hosts,
                rows,
                resyncs,
                clocks,
                readings,
                extras,
            }),
        }
    }

    /// Whether each skew stays in its range when it grows by s, which is at least 0.
    pub fn takes_widening(&self, s: i128) -> bool
        ensures valid { IsTrue result ↔ MayWiden s self.now }
    {
        0 <= s && may_widen_all(self.hosts.as_slice(), self.resyncs.as_slice(), s)
    }

    /// The log with s added to each skew, in the log's unit of time. s is at least 0, and no skew may
    /// leave its range. Takes no memory.
    pub fn widened(self, s: i128) -> Log
        requires low { pos 0 ≤ℤ s }
        requires high { All (λ h. (h.skew +ℤ s) ≤ℤ MAX_SKEW) self.hosts }
        requires resyncs { All (λ r. (r.skew +ℤ s) ≤ℤ MAX_SKEW) self.resyncs }
        ensures log { result ≡ widened s self }
    {
        let Log {
            hosts,
            rows,
            resyncs,
            clocks,
            readings,
            extras,
        } = self;
        Log {
            hosts: widened_hosts(hosts, s),
            rows,
            resyncs: widened_resyncs(resyncs, s),
            clocks,
            readings,
            extras,
        }
    }

    /// Whether a log file can state it: it has no more extra bounds than a file may state, and no skew
    /// above the greatest that one may state.
    pub fn plain(&self) -> bool
        ensures plain { IsTrue result ↔ IsPlain self.now }
    {
        self.extras.len() <= MAX_WRITTEN_EXTRAS
            && are_written(self.hosts.as_slice(), self.resyncs.as_slice())
    }
}

/// A log's hosts, rows, resyncs, clocks, readings and extra bounds are within their ranges and fit together.
pub fn log_is_valid(log: &Log)
    ensures valid { IsLog log.now }
{
    let _ = log.rows();
}
