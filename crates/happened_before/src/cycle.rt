//! The cycle that events are in where all that are left wait for one another.

ghost use Rattle.std.specs.Prelude.{◌≡◌, ◌≢◌, ◌<◌, ◌^◌, length, reverse, All, IfNone, IfOk, IfSome, false, slice_index};
ghost use Rattle.happened_before.specs.Causes.{IsAmong, IsStuck, IsWhole, causes_at, is_finished};
ghost use Rattle.happened_before.specs.Cycles.{IsCausal};

use crate::causes::Causes;
use mt_list::ListOf;
use mt_model::{EventId, Walk};
use std::alloc::{AllocError, Global};

// The first place where an event stands.
fn place(path: &[EventId], event: usize) -> Option<usize>
    ensures within { IfSome result (λ i. i < length path.now) }
    ensures found { IfSome result (λ i. slice_index path.now i ≡ event) }
    ensures none { IfNone result (All (λ e. e ≢ event) path.now) }
{
    path.iter().position(|e| e.get() as usize == event)
}

// A cause that an event waits for.
fn awaited(table: &[Causes], finished: &[bool], event: usize) -> usize
    requires flags { length finished.now ≡ length table.now }
    requires whole { IsWhole table.now }
    requires stuck { IsStuck table.now finished.now }
    requires event { event < length table.now }
    requires unfinished { is_finished finished.now event ≡ false }
    ensures cause { IsAmong (causes_at table.now event) result }
    ensures within { result < length table.now }
    ensures unfinished { is_finished finished.now result ≡ false }
{
    match table[event].waiting(finished) {
        Some(cause) => cause,
        None => unreachable!(),
    }
}

fn reversed(alloc: Global, path: &[EventId]) -> Result<Walk, AllocError>
    ensures { IfOk result (λ walk. walk ≡ reverse path.now) }
{
    Ok(ListOf::from_vec(path.iter().rev().copied().collect(alloc)?))
}

/// Where each event that isn't finished waits for another one, and some event isn't, events each of
/// which is a cause of the next, and the last of the first. None stands twice.
pub fn cycle(
    alloc: Global,
    table: &[Causes],
    finished: &[bool],
    start: usize,
) -> Result<Walk, AllocError>
    requires flags { length finished.now ≡ length table.now }
    requires few { length table.now < 2 ^ 32 }
    requires whole { IsWhole table.now }
    requires stuck { IsStuck table.now finished.now }
    requires start { start < length table.now }
    requires unfinished { is_finished finished.now start ≡ false }
    ensures cycle { IfOk result (IsCausal table.now) }
{
    let mut path = Vec::new(alloc);
    let mut here = start;
    'back: loop {
        if let Some(i) = place(&path, here) {
            return reversed(alloc, &path[i..]);
        }
        path.push(EventId::new(here as u32))?;
        here = awaited(table, finished, here);
    }
}
