//! The rows that tell of a proposition.

ghost use Rattle.std.specs.Prelude.{◌≡◌, ◌<◌, length, IfOk};
ghost use Rattle.mt_model.specs.State.{change_at, changes_of as changes_of_host, effect_of, is_pulse_at, is_pulse_of, pulses_of as pulses_of_host};
ghost use Rattle.axiom_rules.specs.NodeShapes.{rows_named as rows_of_proposition};

use mt_list::ListOf;
use mt_model::{Act, Log, Name};
use std::alloc::{AllocError, Global};
use std::marker::Model;

/// A row that changes a proposition, by its place in the log, and whether it sets it.
#[derive(Clone, Copy)]
pub struct ChangeRow {
    row: u32,
    sets: bool,
}

impl Model for ChangeRow {
    ghost use Rattle.mt_model.specs.State.{Change};

    ghost Value = { Change };

    ghost view = { λ c. record { row = c.row; sets = c.sets } };

    ghost inverse = { λ c. record { row = c.row; sets = c.sets } };
}

impl ChangeRow {
    /// Its place in the log.
    pub fn row(&self) -> u32
        ensures { result ≡ self.now.row }
    {
        self.row
    }

    /// Whether it sets the proposition.
    pub fn sets(&self) -> bool
        ensures { result ≡ self.now.sets }
    {
        self.sets
    }
}

/// The changes of a proposition in the order of the log.
pub type ChangeList = ListOf<ChangeRow>;

/// The pulse rows of a proposition, by their places in the log, in its order.
pub type PulseList = ListOf<u32>;

/// The rows that tell of a proposition of a host.
#[derive(Drop)]
pub struct PropositionRows {
    pub changes: ChangeList,
    pub pulses: PulseList,
}

// Whether an act sets the proposition or clears it, where it does one of them.
fn effect(act: &Act, name: &Name) -> Option<bool>
    ensures { result ≡ effect_of name.now act.now }
{
    match act {
        Act::Set(changed) if changed.bytes() == name.bytes() => Some(true),
        Act::Clear(changed) if changed.bytes() == name.bytes() => Some(false),
        Act::Set(_) | Act::Clear(_) | Act::Send(_) | Act::Recv(_) | Act::Note(_) | Act::Pulse(_) =>
            None,
    }
}

// What a row is as a change of a host's proposition.
fn change(log: &Log, host: usize, name: &Name, e: u32) -> Option<ChangeRow>
    requires { e < length log.now.rows }
    ensures { result ≡ change_at log.now host name.now e }
{
    let row = &log.rows()[e as usize];
    if row.host.get() as usize == host {
        let sets = effect(&row.act, name)?;
        Some(ChangeRow { row: e, sets })
    } else {
        None
    }
}

// The changes of a proposition of the host at a place.
fn changes_of(alloc: Global, log: &Log, host: usize, name: &Name) -> Result<ChangeList, AllocError>
    ensures { IfOk result (λ list. list ≡ changes_of_host log.now host name.now) }
{
    let mut list = ChangeList::new(alloc);
    for e in 0..log.rows().len() as u32 {
        if let Some(change) = change(log, host, name, e) {
            list.push(change)?;
        }
    }
    Ok(list)
}

// Whether an act is a pulse of the proposition.
fn pulses(act: &Act, name: &Name) -> bool
    ensures { result ≡ is_pulse_of name.now act.now }
{
    match act {
        Act::Pulse(pulsed) => pulsed.bytes() == name.bytes(),
        Act::Set(_) | Act::Clear(_) | Act::Send(_) | Act::Recv(_) | Act::Note(_) => false,
    }
}

// Whether a row is a pulse of a host's proposition.
fn is_pulse(log: &Log, host: usize, name: &Name, e: u32) -> bool
    requires { e < length log.now.rows }
    ensures { result ≡ is_pulse_at log.now host name.now e }
{
    let row = &log.rows()[e as usize];
    row.host.get() as usize == host && pulses(&row.act, name)
}

// The pulses of a proposition of the host at a place.
fn pulses_of(alloc: Global, log: &Log, host: usize, name: &Name) -> Result<PulseList, AllocError>
    ensures { IfOk result (λ list. list ≡ pulses_of_host log.now host name.now) }
{
    let mut list = PulseList::new(alloc);
    for e in 0..log.rows().len() as u32 {
        if is_pulse(log, host, name, e) {
            list.push(e)?;
        }
    }
    Ok(list)
}

/// The rows that tell of a proposition: none where the log has no such host.
pub fn rows_named(
    alloc: Global,
    log: &Log,
    host: &Name,
    name: &Name,
) -> Result<PropositionRows, AllocError>
    ensures { IfOk result (λ rows. rows ≡ rows_of_proposition log.now host.now name.now) }
{
    match log.host_named(host) {
        Some(place) => Ok(PropositionRows {
            changes: changes_of(alloc, log, place, name)?,
            pulses: pulses_of(alloc, log, place, name)?,
        }),
        None => Ok(PropositionRows {
            changes: ChangeList::new(alloc),
            pulses: PulseList::new(alloc),
        }),
    }
}
