//! The bounds of a log, row by row.

ghost use Rattle.std.specs.Prelude.{◌≡◌, ◌++◌, ◌<◌, length, OnOk, IfOk};
ghost use Rattle.std.specs.List.{flat_map, range_with_len};
ghost use Rattle.mt_model.specs.Bounds.{bounds_at, bounds_of};
ghost use Rattle.mt_model.specs.declared.bound.Bound.TheVariants as bound;

use mt_model::{Bound, BoundList, EventId, Log};
use std::alloc::{AllocError, Global};

// Adds the bounds of a row.
fn add_row(log: &Log, row: EventId, list: &mut BoundList) -> Result<(), AllocError>
    requires { row < length log.now.rows }
    ensures { OnOk result (list.new ≡ list.old ++ bounds_at log.now row) }
{
    let e = row.get() as usize;
    list.push(Bound::Low(row))?;
    list.push(Bound::High(row))?;
    if log.row_before(e).is_some() {
        list.push(Bound::Rise(row))?;
    }
    if log.send_for(e).is_some() {
        list.push(Bound::Message(row))?;
        if log.most_delay_at(e).is_some() {
            list.push(Bound::Late(row))?;
        }
    }
    if log.reading_at(e).is_some() {
        list.push(Bound::Under(row))?;
        list.push(Bound::Over(row))?;
    }
    Ok(())
}

// The bounds of all rows.
fn row_bounds(alloc: Global, log: &Log) -> Result<BoundList, AllocError>
    ensures { IfOk result (λ list. list ≡ flat_map (bounds_at log.now) (range_with_len 0 (length log.now.rows))) }
{
    let mut list = BoundList::new(alloc);
    for e in 0..log.rows().len() {
        add_row(log, EventId::new(e as u32), &mut list)?;
    }
    Ok(list)
}

/// The bounds of a log: for each row in order Low, High, Rise where it is not the first row of its
/// host, Message where it receives, Late where it does and its host has a greatest delay, and Under and
/// Over where it reads a clock; then the extra bounds in order. That is at most seven bounds a row, and
/// one an extra.
pub fn bounds(alloc: Global, log: &Log) -> Result<BoundList, AllocError>
    ensures list { IfOk result (λ list. list ≡ bounds_of log.now) }
{
    let mut list = row_bounds(alloc, log)?;
    for k in 0..log.extras().len() {
        list.push(Bound::Extra(k as u32))?;
    }
    Ok(list)
}
