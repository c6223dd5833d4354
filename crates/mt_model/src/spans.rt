//! What a log says of its rows: how far a stamp may be off, how long a row comes at least after the one before it on
//! its host, and how long a receive comes at least and at most after its send.

ghost use Rattle.std.specs.Prelude.{◌≡◌, ◌==◌, ◌<◌, ◌≤◌, ◌&&◌, length, find, reverse, slice_get, slice_index_or, slice_set, take, nat_le, ℕ, map, All, IfOk, IfSome, Some, pos, ◌≤ℤ◌};
ghost use Rattle.mt_model.specs.Log.{IsHost, IsResync, IsWithin};
ghost use Rattle.mt_model.specs.Spans.{AreHostSpans, HavePassed, IsSpan, declared_span, resynced_span, spans_of};
ghost use Rattle.mt_model.specs.Timing.{gap_of, host_of, least_delay, most_delay, resync_of, skew_of};

use crate::{Host, Log, MAX_DELAY, MAX_GAP, MAX_SKEW, MIN_DELAY, Resync};
use mt_list::ListOf;
use std::alloc::{AllocError, Global};

/// What holds of a row: how far its stamp may be off, and how long after the row before it on its host it comes
/// at least, both in the log's unit of time.
#[derive(Clone, Copy, PartialEq, Eq)]
pub struct Span {
    pub skew: i128,
    pub gap: i128,
}

/// Spans, one per row, in the order of the rows.
pub type SpanList = ListOf<Span>;

/// The host of row `e`.
pub fn host_at(log: &Log, e: usize) -> u32
    requires { e < length log.now.rows }
    ensures host { result ≡ host_of log.now e }
    ensures within { result < length log.now.hosts }
{
    log.rows()[e].host.get()
}

// A row's host.
fn host(log: &Log, e: usize) -> &Host
    requires { e < length log.now.rows }
    ensures found { slice_get log.now.hosts (host_of log.now e) ≡ Some result.now }
    ensures valid { IsHost result.now }
{
    &log.hosts()[host_at(log, e) as usize]
}

// Whether a resync is of a host and does not stand behind row e.
fn applies(resync: &Resync, host: u32, e: usize) -> bool
    ensures { result ≡ (resync.now.host == host && nat_le resync.now.place e) }
{
    resync.host.get() == host && resync.place as usize <= e
}

// The last resync of a host that does not stand behind row e.
fn last_resync(resyncs: &[Resync], host: u32, e: usize) -> Option<Resync>
    ensures { result ≡ find (λ r. r.host == host && nat_le r.place e) (reverse resyncs.now) }
{
    for k in (0..resyncs.len()).rev() {
        if applies(&resyncs[k], host, e) {
            return Some(resyncs[k]);
        }
    }
    None
}

// The resync by which a row goes, if any.
fn resync_at(log: &Log, e: usize) -> Option<Resync>
    requires { e < length log.now.rows }
    ensures resync { result ≡ resync_of log.now e }
    ensures valid { IfSome result (IsResync (length log.now.hosts) (length log.now.rows)) }
{
    last_resync(log.resyncs(), host_at(log, e), e)
}

// The spans of hosts before any resync.
fn declared_spans(alloc: Global, hosts: &[Host]) -> Result<Vec<Span>, AllocError>
    ensures { IfOk result (λ host_spans. host_spans.items ≡ map declared_span hosts.now) }
{
    let mut host_spans = Vec::new(alloc);
    for host in hosts {
        host_spans.push(Span {
            skew: host.skew,
            gap: host.gap,
        })?;
    }
    Ok(host_spans)
}

// Sets the span of a host to what a resync says.
fn set_span(host_spans: &mut [Span], resync: &Resync)
    requires { resync.now.host < length host_spans.old }
    ensures { host_spans.new ≡ slice_set host_spans.old resync.now.host (resynced_span resync.now) }
{
    host_spans[resync.host.get() as usize] = Span {
        skew: resync.skew,
        gap: resync.gap,
    };
}

// Sets the spans of hosts by the resyncs from a place on that do not stand behind row e, and gives the place
// of the first that does, or their number. None before the place stands behind the row either.
fn pass_resyncs(log: &Log, host_spans: &mut [Span], from: usize, e: usize) -> usize
    requires from { from ≤ length log.now.resyncs }
    requires before { (i : ℕ) (d : Resync) → i < from → (slice_index_or log.now.resyncs i d).place ≤ e }
    requires host_spans { AreHostSpans log.now.hosts (take from log.now.resyncs) host_spans.old }
    ensures passed { HavePassed log.now.resyncs result e }
    ensures host_spans { AreHostSpans log.now.hosts (take result log.now.resyncs) host_spans.new }
{
    let resyncs = log.resyncs();
    for k in from..resyncs.len() {
        let resync = &resyncs[k];
        if e < resync.place as usize {
            return k;
        }
        set_span(host_spans, resync);
    }
    resyncs.len()
}

// The span of each row, where these are the spans of hosts before any resync.
fn spans_from(alloc: Global, log: &Log, host_spans: &mut [Span]) -> Result<SpanList, AllocError>
    requires { host_spans.old ≡ map declared_span log.now.hosts }
    ensures spans { IfOk result (λ spans. spans ≡ spans_of log.now) }
    ensures ranges { IfOk result (All IsSpan) }
{
    let mut spans = SpanList::new(alloc);
    let mut passed = 0;
    for e in 0..log.rows().len() {
        passed = pass_resyncs(log, host_spans, passed, e);
        spans.push(host_spans[host_at(log, e) as usize])?;
    }
    Ok(spans)
}

impl Log {
    /// By how much the local time of row e may differ from its true time: what the last resync of its
    /// host says that does not stand behind the row, else what the host says. Takes no memory.
    pub fn skew_at(&self, e: usize) -> i128
        requires { e < length self.now.rows }
        ensures skew { result ≡ skew_of self.now e }
        ensures range { IsWithin MAX_SKEW result }
    {
        match resync_at(self, e) {
            Some(resync) => resync.skew,
            None => host(self, e).skew,
        }
    }

    /// How long after the row before it on its host row e comes at least, by the same rule. Takes no
    /// memory.
    pub fn gap_at(&self, e: usize) -> i128
        requires { e < length self.now.rows }
        ensures gap { result ≡ gap_of self.now e }
        ensures range { IsWithin MAX_GAP result }
    {
        match resync_at(self, e) {
            Some(resync) => resync.gap,
            None => host(self, e).gap,
        }
    }

    /// How long after its send row r comes at least, where it is a receive: that is its host's to say.
    /// Takes no memory.
    pub fn least_delay_at(&self, r: usize) -> i128
        requires { r < length self.now.rows }
        ensures delay { result ≡ least_delay self.now r }
        ensures low { pos MIN_DELAY ≤ℤ result }
        ensures high { result ≤ℤ pos MAX_DELAY }
    {
        i128::from(host(self, r).least)
    }

    /// How long after its send row r comes at most, where it is a receive and its host says so. Takes no
    /// memory.
    pub fn most_delay_at(&self, r: usize) -> Option<i128>
        requires { r < length self.now.rows }
        ensures delay { result ≡ most_delay self.now r }
        ensures low { IfSome result (λ most. pos MIN_DELAY ≤ℤ most) }
        ensures high { IfSome result (λ most. most ≤ℤ pos MAX_DELAY) }
    {
        match host(self, r).most {
            Some(most) => Some(i128::from(most)),
            None => None,
        }
    }

    /// The skew and the gap of each row, in one pass over rows and resyncs. An error is want of memory.
    pub fn spans(&self, alloc: Global) -> Result<SpanList, AllocError>
        ensures spans { IfOk result (λ spans. spans ≡ spans_of self.now) }
        ensures ranges { IfOk result (All IsSpan) }
    {
        let mut host_spans = declared_spans(alloc, self.hosts())?;
        spans_from(alloc, self, &mut host_spans)
    }
}
