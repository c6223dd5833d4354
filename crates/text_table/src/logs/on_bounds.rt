//! Questions on the bounds of a log:
//!
//! - `bounds`: its bounds, each with the two nodes of its edge and the most between them. `edge`: that of a bound.
//! - `settle`: a timing or bounds in conflict. `consistent`: whether there is a timing, or bounds in conflict.
//! - `differences`: for each two rows the least and the greatest time from the first to the second. `span`: that
//!   from the first row to the last one.

use crate::logs::on_timings;
use crate::logs::steps::{step_of, walk_text};
use crate::telling::{tell, tell_times};
use mt_model::{Bound, EventId, Log, Step};
use skew_bounds::{
    Consistency, Tight, TightFault, bound_of, bounds, edge_of, settle, step_of as step_of_bound,
    tight,
};
use std::alloc::Global;

fn tell_edge(alloc: Global, log: &Log, bound: &Bound, out: &mut Vec<u8>) -> Option<()> {
    let step = step_of_bound(*bound);
    match edge_of(log, *bound) {
        Some(edge) => {
            let (from, to, most) = (edge.from, edge.to, edge.bound);
            tell(alloc, out, format_args!("{step}: {from} {to} {most}"))
        }
        None => tell(alloc, out, format_args!("{step}: none")),
    }
}

fn tell_bounds(alloc: Global, log: &Log, out: &mut Vec<u8>) -> Option<()> {
    for bound in bounds(alloc, log).ok()?.as_slice() {
        tell_edge(alloc, log, bound, out)?;
    }
    Some(())
}

fn tell_walk(alloc: Global, steps: &[Step], out: &mut Vec<u8>) -> Option<()> {
    tell(
        alloc,
        out,
        format_args!("conflict: {}", walk_text(alloc, steps)?),
    )
}

fn tell_settled(alloc: Global, log: &Log, whole: bool, out: &mut Vec<u8>) -> Option<()> {
    match settle(alloc, log).ok()? {
        Consistency::Timing(times) if whole => tell_times(alloc, times.as_slice(), out),
        Consistency::Timing(_) => tell(alloc, out, "times"),
        Consistency::Conflict(steps) => tell_walk(alloc, steps.as_slice(), out),
    }
}

// The least and the greatest time from a row to another one.
fn difference(table: &Tight, e: u32, f: u32) -> Option<(i128, i128)> {
    if e as usize >= table.events() || f as usize >= table.events() {
        return None;
    }
    let (e, f) = (EventId::new(e), EventId::new(f));
    Some((table.least(e, f), table.greatest(e, f)))
}

fn tell_difference(alloc: Global, table: &Tight, e: u32, f: u32, out: &mut Vec<u8>) -> Option<()> {
    let (least, greatest) = difference(table, e, f)?;
    tell(alloc, out, format_args!("{e} to {f}: {least} {greatest}"))
}

// Adds the differences of a row.
fn tell_row(alloc: Global, table: &Tight, e: u32, count: u32, out: &mut Vec<u8>) -> Option<()> {
    for f in 0..count {
        tell_difference(alloc, table, e, f, out)?;
    }
    Some(())
}

fn tell_table(alloc: Global, table: &Tight, out: &mut Vec<u8>) -> Option<()> {
    let count = u32::try_from(table.events()).ok()?;
    for e in 0..count {
        tell_row(alloc, table, e, count, out)?;
    }
    Some(())
}

fn tell_differences(alloc: Global, log: &Log, out: &mut Vec<u8>) -> Option<()> {
    match tight(alloc, log) {
        Ok(table) => tell_table(alloc, &table, out),
        Err(TightFault::Cycle(steps)) => tell_walk(alloc, steps.as_slice(), out),
        Err(TightFault::Memory) => None,
    }
}

fn tell_span(alloc: Global, log: &Log, out: &mut Vec<u8>) -> Option<()> {
    let table = tight(alloc, log).ok()?;
    let last = u32::try_from(log.rows().len()).ok()?.checked_sub(1)?;
    tell_difference(alloc, &table, 0, last, out)
}

/// Answers a question, which is one on timings or orders if it isn't one of these.
pub fn answer(alloc: Global, word: &str, rest: &str, log: &Log, out: &mut Vec<u8>) -> Option<()> {
    match word {
        "bounds" => tell_bounds(alloc, log, out),
        "edge" => tell_edge(alloc, log, &bound_of(step_of(rest)?)?, out),
        "settle" => tell_settled(alloc, log, true, out),
        "consistent" => tell_settled(alloc, log, false, out),
        "differences" => tell_differences(alloc, log, out),
        "span" => tell_span(alloc, log, out),
        _ => on_timings::answer(alloc, word, rest, log, out),
    }
}
