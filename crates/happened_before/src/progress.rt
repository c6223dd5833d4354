//! Vector clocks, made event by event: that of an event follows those of its causes.

ghost use Rattle.std.specs.Prelude.{◌≡◌, ℕ, ◌<◌, ◌^◌, [], length, IfOk, OnOk, slice_index_or};
ghost use Rattle.happened_before.specs.Causes.{IsReady, IsStuck, IsWhole};
ghost use Rattle.happened_before.specs.Progress.{FollowsClocks, HaveClocks, IsProgress, IsStart, number_of, waiting_count};

use crate::causes::{Causes, ready};
use mt_list::ListOf;
use mt_model::HostId;
use std::alloc::{AllocError, Global};

/// A number for each host.
pub type Clock = ListOf<u32>;

/// Which events are finished, and the clocks of these.
#[derive(Drop)]
pub struct Progress {
    pub finished: Vec<bool>,
    pub clocks: Vec<Clock>,
}

// The number of a cause for a host, and 0 where there is none.
fn number(clocks: &[Clock], cause: Option<usize>, host: usize) -> u32
    requires within { (e : ℕ) → cause ≡ Some e → e < length clocks.now }
    requires wide { (e : ℕ) → cause ≡ Some e → host < length (slice_index_or clocks.now e []) }
    ensures { result ≡ number_of clocks.now cause host }
{
    match cause {
        Some(e) => clocks[e].as_slice()[host],
        None => 0,
    }
}

// The clock of an event of a host, one number for each of the hosts, from those of its causes.
fn clock_after(
    alloc: Global,
    width: usize,
    host: usize,
    causes: Causes,
    clocks: &[Clock],
) -> Result<Clock, AllocError>
    requires { HaveClocks width clocks.now causes }
    ensures { IfOk result (FollowsClocks width host clocks.now causes) }
{
    let mut clock = Clock::new(alloc);
    for h in 0..width {
        let previous = number(clocks, causes.previous, h);
        let send = number(clocks, causes.send, h);
        clock.push(previous.max(send) + u32::from(h == host))?;
    }
    Ok(clock)
}

// A clock without numbers for each of so many events.
fn empty_clocks(alloc: Global, events: usize) -> Result<Vec<Clock>, AllocError>
    ensures { IfOk result (λ clocks. length clocks.items ≡ events) }
{
    let mut clocks = Vec::new(alloc);
    for _ in 0..events {
        clocks.push(Clock::new(alloc))?;
    }
    Ok(clocks)
}

impl Progress {
    // None of so many events is finished.
    fn new(alloc: Global, events: usize) -> Result<Progress, AllocError>
        ensures { IfOk result (λ p. IsStart events p.finished.items p.clocks.items) }
    {
        Ok(Progress {
            finished: vec![in alloc; false; events]?,
            clocks: empty_clocks(alloc, events)?,
        })
    }

    // Finishes an event that is ready.
    fn finish(
        &mut self,
        alloc: Global,
        width: usize,
        hosts: &[HostId],
        table: &[Causes],
        e: usize,
    ) -> Result<(), AllocError>
        requires progress { IsProgress width hosts.now table.now self.old }
        requires count { length hosts.now ≡ length table.now }
        requires few { length table.now < 2 ^ 32 }
        requires ready { IsReady table.now self.old.finished.items e }
        ensures progress { OnOk result (IsProgress width hosts.now table.now self.new) }
        ensures fewer { OnOk result (waiting_count self.new.finished.items < waiting_count self.old.finished.items) }
    {
        let host = hosts[e].get() as usize;
        let clock = clock_after(alloc, width, host, table[e], &self.clocks)?;
        self.clocks[e] = clock;
        self.finished[e] = true;
        Ok(())
    }
}

/// Finishes events until each that is left waits for another one. `width` is the number of hosts, `hosts` has
/// the host of each event, and `table` its causes.
pub fn finish_all(
    alloc: Global,
    width: usize,
    hosts: &[HostId],
    table: &[Causes],
) -> Result<Progress, AllocError>
    requires whole { IsWhole table.now }
    requires count { length hosts.now ≡ length table.now }
    requires few { length table.now < 2 ^ 32 }
    ensures progress { IfOk result (IsProgress width hosts.now table.now) }
    ensures stuck { IfOk result (λ p. IsStuck table.now p.finished.items) }
{
    let mut progress = Progress::new(alloc, table.len())?;
    'events: while let Some(e) = ready(table, &progress.finished) {
        progress.finish(alloc, width, hosts, table, e)?;
    }
    Ok(progress)
}
