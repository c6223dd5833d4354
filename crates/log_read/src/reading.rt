//! A log that is read record by record.

ghost use Rattle.std.specs.Prelude.{◌≡◌, [], ◌<◌, ◌≤◌, length, Some, All, IfSome};
ghost use Rattle.mt_model.specs.Log.{IsSent, received_by};
ghost use Rattle.mt_model.specs.declared.log.Extra.{Extra};
ghost use Rattle.log_read.specs.declared.kind.Kind.TheVariants as record_kind;
ghost use Rattle.log_read.specs.LogOf.{fault_of};
ghost use Rattle.log_read.specs.Reading.{Adds, TakesIn, with_record};
ghost use Rattle.log_read.specs.Records.{log_from};

use crate::LogFault;
use crate::bound::bound_entry;
use crate::clock::clock_entry;
use crate::columns::Columns;
use crate::entry::{host_entry, latency_entry, resync_entry, row_entry};
use crate::fields::Fields;
use crate::kind::{EventKind, Kind};
use crate::latency::{LatencyList, delayed};
use crate::version::Version;
use mt_list::push_within;
use mt_model::{ExtraList, HostList, Log, Name, NameList, ReadingList, ResyncList, Row, RowList};
use std::alloc::Global;
use std::marker::Model;

/// What was read so far of a log that is read record by record, which contracts see as a listing.
#[derive(Drop)]
pub struct Reading {
    hosts: HostList,
    rows: RowList,
    resyncs: ResyncList,
    latencies: LatencyList,
    clocks: Vec<Name>,
    readings: ReadingList,
    bounds: ExtraList,
}

impl Model for Reading {
    ghost use Rattle.log_read.specs.Reading.{IsBegun};
    ghost use Rattle.log_read.specs.Records.{Listing};

    ghost Value = { Listing };

    ghost view = { λ r. record { hosts = r.hosts; rows = r.rows; resyncs = r.resyncs; latencies = r.latencies; clocks = r.clocks.items; readings = r.readings; bounds = r.bounds } };

    ghost invariant = { λ r. IsBegun (record { hosts = r.hosts; rows = r.rows; resyncs = r.resyncs; latencies = r.latencies; clocks = r.clocks.items; readings = r.readings; bounds = r.bounds }) };
}

impl Reading {
    /// Nothing read yet.
    pub fn new(alloc: Global) -> Reading
        ensures empty { result ≡ record { hosts = []; rows = []; resyncs = []; latencies = []; clocks = []; readings = []; bounds = [] } }
    {
        Reading {
            hosts: HostList::new(alloc),
            rows: RowList::new(alloc),
            resyncs: ResyncList::new(alloc),
            latencies: LatencyList::new(alloc),
            clocks: Vec::new(alloc),
            readings: ReadingList::new(alloc),
            bounds: ExtraList::new(alloc),
        }
    }

    /// The rows so far.
    pub fn rows(&self) -> &[Row]
        ensures rows { result.now ≡ self.now.rows }
    {
        self.rows.as_slice()
    }

    fn add_host(&mut self, alloc: Global, columns: Columns) -> Result<(), LogFault>
        ensures { TakesIn result (Some record_kind.Host) columns.entry self.old self.new }
    {
        let host = host_entry(alloc, self.hosts.as_slice(), columns)?;
        self.hosts.push(host)?;
        Ok(())
    }

    fn add_row(&mut self, alloc: Global, kind: EventKind, columns: Columns) -> Result<(), LogFault>
        ensures { TakesIn result (Some (record_kind.Event kind)) columns.entry self.old self.new }
    {
        let hosts = self.hosts.as_slice();
        let row = row_entry(alloc, hosts, self.rows.as_slice(), kind, columns)?;
        self.rows.push(row)?;
        Ok(())
    }

    fn add_resync(&mut self, columns: Columns) -> Result<(), LogFault>
        ensures { TakesIn result (Some record_kind.Resync) columns.entry self.old self.new }
    {
        let hosts = self.hosts.as_slice();
        let resync = resync_entry(hosts, self.rows.len(), columns)?;
        self.resyncs.push(resync)?;
        Ok(())
    }

    fn add_latency(&mut self, alloc: Global, columns: Columns) -> Result<(), LogFault>
        ensures { TakesIn result (Some record_kind.Latency) columns.entry self.old self.new }
    {
        let hosts = self.hosts.as_slice();
        let latency = latency_entry(alloc, hosts, self.latencies.as_slice(), columns)?;
        self.latencies.push(latency)?;
        Ok(())
    }

    fn add_clock(&mut self, alloc: Global, columns: Columns) -> Result<(), LogFault>
        ensures { TakesIn result (Some record_kind.Clock) columns.entry self.old self.new }
    {
        let hosts = self.hosts.as_slice();
        let entry = clock_entry(alloc, hosts, &self.clocks, self.rows.len(), columns)?;
        // A clock is named only together with its reading, so that each one is read.
        self.clocks.reserve(1)?;
        self.readings.push(entry.reading)?;
        if let Some(named) = entry.named {
            push_within(&mut self.clocks, named);
        }
        Ok(())
    }

    fn add_bound(&mut self, columns: Columns) -> Result<(), LogFault>
        ensures { TakesIn result (Some record_kind.Bound) columns.entry self.old self.new }
    {
        let bound = bound_entry(self.bounds.as_slice(), columns)?;
        self.bounds.push(bound)?;
        Ok(())
    }

    // Takes a record of a kind in.
    fn add_of(
        &mut self,
        alloc: Global,
        kind: Option<Kind>,
        columns: Columns,
    ) -> Result<(), LogFault>
        ensures { TakesIn result kind columns.entry self.old self.new }
    {
        match kind {
            Some(Kind::Host) => self.add_host(alloc, columns),
            Some(Kind::Event(kind)) => self.add_row(alloc, kind, columns),
            Some(Kind::Resync) => self.add_resync(columns),
            Some(Kind::Latency) => self.add_latency(alloc, columns),
            Some(Kind::Clock) => self.add_clock(alloc, columns),
            Some(Kind::Bound) => self.add_bound(columns),
            None => Err(LogFault::Kind {
                place: columns.place,
            }),
        }
    }

    /// Takes the record at a place in; after a fault nothing is known of what was read.
    pub fn add(
        &mut self,
        alloc: Global,
        version: Version,
        place: u32,
        fields: &Fields,
    ) -> Result<(), LogFault>
        ensures { Adds result (fault_of version place self.old fields.now) self.new (with_record self.old fields.now) }
    {
        match fields.as_slice() {
            [word, host, time, name] => {
                let kind = version.known(Kind::named(word.bytes()));
                let columns = Columns {
                    place,
                    host: host.bytes(),
                    time: time.bytes(),
                    name: name.bytes(),
                };
                self.add_of(alloc, kind, columns)
            }
            _ => Err(LogFault::Width { place }),
        }
    }

    /// The log of what was read.
    pub fn finish(self) -> Log
        requires some { 1 ≤ length self.rows }
        requires sent { All (λ r. IfSome (received_by r.act) (IsSent self.rows)) self.rows }
        requires placed { All (λ (x : Extra). (x.e < length self.rows) × (x.f < length self.rows)) self.bounds }
        ensures log { result ≡ log_from self }
    {
        let Reading {
            hosts,
            rows,
            resyncs,
            latencies,
            clocks,
            readings,
            bounds,
        } = self;
        let hosts = delayed(hosts, latencies.as_slice());
        let clocks = NameList::from_vec(clocks);
        match Log::build_read(hosts, rows, resyncs, clocks, readings, bounds) {
            Some(log) => log,
            None => unreachable!(),
        }
    }
}
