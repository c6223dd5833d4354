//! The log of a seed: six hosts and 24 rows, whose local times are drawn by a linear congruential generator.

ghost use Rattle.std.specs.Prelude.{◌≡◌, ◌<◌, ◌+◌, ◌*◌, ◌/◌, ◌%◌, IfOk, true, map};
ghost use Rattle.std.specs.List.{range_with_len};
ghost use Rattle.mt_model.specs.Name.{is_name};
ghost use Rattle.demo_log.specs.DemoLog.{demo_act as demo_act_of, demo_host as demo_host_of, demo_row as demo_row_of, drawn as drawn_at, log_of_seed, next_state as state_after_this, numbered as numbered_name, row_with, switched as switched_in};

use mt_model::{Act, Host, HostId, HostList, Log, MIN_DELAY, Name, Row, RowList};
use std::alloc::{AllocError, Global};

/// The number of hosts, which take turns.
const HOSTS: u32 = 6;

/// The number of rows, four of each host.
const ROWS: u32 = 24;

// The state after this one.
fn next_state(state: u64) -> u64
    ensures state { result ≡ state_after_this state }
{
    state
        .wrapping_mul(6_364_136_223_846_793_005)
        .wrapping_add(1_442_695_040_888_963_407)
}

// What a draw gives that comes to this state, from 0 to 4.
fn drawn(state: u64) -> u64
    ensures drawn { result ≡ drawn_at state }
    ensures small { result < 5 }
{
    (state >> 33) % 5
}

/// The name that a text is.
pub fn name(alloc: Global, text: &str) -> Result<Name, AllocError>
    requires { is_name text.now ≡ true }
    ensures { IfOk result (λ n. n ≡ text.now) }
{
    match Name::new(alloc, text.as_bytes())? {
        Some(name) => Ok(name),
        None => unreachable!(),
    }
}

// The name of a letter and a number, as `m0`.
fn numbered(alloc: Global, letter: &str, number: u32) -> Result<Name, AllocError>
    requires { is_name (numbered_name letter.now number) ≡ true }
    ensures { IfOk result (λ n. n ≡ numbered_name letter.now number) }
{
    let text = format!(in alloc; "{letter}{number}")?;
    name(alloc, text.as_str())
}

// The host at a place.
fn demo_host(alloc: Global, place: u32) -> Result<Host, AllocError>
    requires { place < 6 }
    ensures { IfOk result (λ host. host ≡ demo_host_of place) }
{
    Ok(Host {
        name: numbered(alloc, "h", place)?,
        skew: 3,
        gap: 1,
        least: MIN_DELAY,
        most: None,
    })
}

// All hosts.
fn demo_hosts(alloc: Global) -> Result<HostList, AllocError>
    ensures { IfOk result (λ hosts. hosts ≡ map demo_host_of (range_with_len 0 6)) }
{
    let mut hosts = HostList::new(alloc);
    for place in 0..HOSTS {
        hosts.push(demo_host(alloc, place)?)?;
    }
    Ok(hosts)
}

// A proposition is set in the even rounds and cleared in the odd ones.
fn switched(alloc: Global, proposition: &str, round: u32) -> Result<Act, AllocError>
    requires { is_name proposition.now ≡ true }
    ensures { IfOk result (λ act. act ≡ switched_in proposition.now round) }
{
    let name = name(alloc, proposition)?;
    Ok(if round % 2 == 0 {
        Act::Set(name)
    } else {
        Act::Clear(name)
    })
}

// What happens on a host in a round.
fn demo_act(alloc: Global, host: u32, round: u32) -> Result<Act, AllocError>
    requires host { host < 6 }
    requires round { round < 4 }
    ensures { IfOk result (λ act. act ≡ demo_act_of host round) }
{
    match host {
        0 => switched(alloc, "p", round),
        1 => switched(alloc, "q", round),
        2 => Ok(Act::Send(numbered(alloc, "m", round)?)),
        3 => Ok(Act::Recv(numbered(alloc, "m", round)?)),
        4 => Ok(Act::Note(name(alloc, "tick")?)),
        _ => switched(alloc, "r", round),
    }
}

// The row at a place, for which this was drawn.
fn demo_row(alloc: Global, place: u32, drawn: u64) -> Result<Row, AllocError>
    requires place { place < 24 }
    requires drawn { drawn < 5 }
    ensures { IfOk result (λ row. row ≡ row_with place drawn) }
{
    Ok(Row {
        host: HostId::new(place % HOSTS),
        local: i128::from(10 * u64::from(place) + drawn),
        act: demo_act(alloc, place % HOSTS, place / HOSTS)?,
    })
}

// All rows of a seed.
fn demo_rows(alloc: Global, seed: u64) -> Result<RowList, AllocError>
    ensures { IfOk result (λ rows. rows ≡ map (demo_row_of seed) (range_with_len 0 24)) }
{
    let mut rows = RowList::new(alloc);
    let mut state = seed;
    for place in 0..ROWS {
        state = next_state(state);
        rows.push(demo_row(alloc, place, drawn(state))?)?;
    }
    Ok(rows)
}

/// The log of a seed: 24 rows of the hosts `h0` to `h5`, which take turns, at local times 10 apart but for what is
/// drawn, from 0 to 4. An error is want of memory.
pub fn demo_log(alloc: Global, seed: u64) -> Result<Log, AllocError>
    ensures log { IfOk result (λ log. log ≡ log_of_seed seed) }
{
    let hosts = demo_hosts(alloc)?;
    let rows = demo_rows(alloc, seed)?;
    match Log::build(hosts, rows) {
        Some(log) => Ok(log),
        None => unreachable!(),
    }
}
