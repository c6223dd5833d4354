//! The table of how far the moments of a log can be apart.

ghost use Rattle.std.specs.Prelude.{◌≡◌, ◌<◌, ◌≤◌, ◌^◌, ◌∷◌, ◌++◌, length, pos, All, IfOk};
ghost use Rattle.mt_model.specs.Clocks.{offsets_of};
ghost use Rattle.mt_model.specs.Log.{IsWithin};
ghost use Rattle.mt_model.specs.Timing.{Admissible};
ghost use Rattle.mt_model.specs.declared.limits.TheConstants.{MAX_TIME};
ghost use Rattle.skew_bounds.specs.Differences.{IsOfRows, entry};
ghost use Rattle.skew_bounds.specs.declared.column.TheConstants.{FAR};
ghost use Rattle.skew_bounds.specs.Incoming.{IsNear, IsNetwork, lists_of};
ghost use Rattle.skew_bounds.specs.System.{IsSystemOf};
ghost use Rattle.skew_bounds.specs.Table.{IsTableOf};
ghost use Rattle.skew_bounds.specs.Tight.{IsTight};

use crate::beginning::are_near;
use crate::column::Column;
use crate::edges::node_count;
use crate::incoming::incoming_of;
use crate::latest::latest;
use crate::offsets::offsets;
use crate::system::BoundSystem;
use mt_model::{Log, bounds_are_admissible, log_is_valid};
use neg_cycle::Edge;
use std::alloc::{AllocError, Global};
use std::marker::Model;

/// For each pair of nodes, which count from 0, the most that the number of the first may be above that
/// of the second: a difference bound matrix (Dill, Timing assumptions and verification of finite-state
/// concurrent systems, 1989), of whose columns only what isn't nearest by way of the zero moment is held.
#[derive(Drop)]
pub struct Table {
    zero: Vec<i128>,
    columns: Vec<Column>,
}

impl Model for Table {
    ghost use Rattle.std.specs.Prelude.{◌≡◌, All, length};
    ghost use Rattle.mt_model.specs.Log.{IsWithin};
    ghost use Rattle.skew_bounds.specs.Differences.{Differences};
    ghost use Rattle.skew_bounds.specs.declared.column.TheConstants.{FAR};

    ghost Value = { Differences };

    ghost view = { λ t. record { nodes = length t.columns.items; zero = t.zero.items; columns = t.columns.items } };

    ghost invariant = { λ t. (length t.zero.items ≡ length t.columns.items) × All (IsWithin FAR) t.zero.items };
}

impl Table {
    /// How many nodes there are.
    pub fn nodes(&self) -> usize
        ensures count { result ≡ self.now.nodes }
    {
        self.columns.len()
    }

    /// The most that the number of node i may be above that of node j.
    #[inline]
    #[tactic(auto, unfolding(crate::specs::Differences::entry))]
    pub fn entry(&self, i: usize, j: usize) -> i128
        requires i { i < self.now.nodes }
        requires j { j < self.now.nodes }
        ensures value { result ≡ entry self.now i j }
    {
        self.columns[j].number(&self.zero, i)
    }
}

// So many numbers, or as many times 0 where one of them is further from 0 than two times can be apart.
fn near_or_none(alloc: Global, numbers: &[i128], count: usize) -> Result<Vec<i128>, AllocError>
    requires count { count ≤ length numbers.now }
    ensures near { IfOk result (λ v. All (IsWithin FAR) v.items) }
    ensures count { IfOk result (λ v. length v.items ≡ count) }
{
    if are_near(numbers) {
        numbers[..count].to_vec(alloc)
    } else {
        vec![in alloc; 0; count]
    }
}

// The table of the first so many of the nodes at which these edges end, where these numbers meet the edges.
fn table_by(
    alloc: Global,
    nodes: usize,
    incoming: &[Vec<Edge>],
    potential: &[i128],
) -> Result<Table, AllocError>
    requires nodes { nodes ≤ length incoming.now }
    requires zero_moment { 0 < length incoming.now }
    requires few { length incoming.now < 2 ^ 32 }
    requires network { IsNetwork (lists_of incoming.now) }
    requires potential { IsNear (lists_of incoming.now) potential.now }
    ensures { IfOk result (IsTableOf nodes (lists_of incoming.now)) }
{
    let from_zero = latest(alloc, incoming, potential, None, 0)?;
    let known = if are_near(&from_zero) {
        Some(from_zero.as_slice())
    } else {
        None
    };
    let zero = near_or_none(alloc, &from_zero, nodes)?;
    let mut columns = Vec::with_capacity(alloc, nodes)?;
    for node in 0..nodes {
        let numbers = latest(alloc, incoming, potential, known, node as u32)?;
        columns.push(Column::new(alloc, &zero, &numbers[..nodes])?)?;
    }
    Ok(Table { zero, columns })
}

// The time of the zero moment, these of the rows, and an offset of each clock.
fn node_times(alloc: Global, log: &Log, times: &[i128]) -> Result<Vec<i128>, AllocError>
    requires range { All (IsWithin MAX_TIME) times.now }
    requires count { length times.now ≡ length log.now.rows }
    ensures { IfOk result (λ numbers. numbers.items ≡ pos 0 ∷ times.now ++ offsets_of log.now times.now) }
{
    let mut numbers = Vec::new(alloc);
    numbers.push(0)?;
    numbers.extend_from_slice(times)?;
    let offsets = offsets(alloc, log, times)?;
    numbers.extend_from_slice(&offsets)?;
    Ok(numbers)
}

/// The table of the zero moment, which is node 0, and the rows of a log, of which row e is node e + 1,
/// where these are the log's bounds and the log admits these times.
pub fn table_of(
    alloc: Global,
    log: &Log,
    system: &BoundSystem,
    times: &[i128],
) -> Result<Table, AllocError>
    requires system { IsSystemOf log.now system.now }
    requires admissible { Admissible log.now times.now }
    ensures exact { IfOk result (IsTight log.now) }
    ensures rows { IfOk result IsOfRows }
{
    bounds_are_admissible();
    log_is_valid(log);
    let incoming = incoming_of(alloc, node_count(log) as usize, system.edges.as_slice())?;
    let potential = node_times(alloc, log, times)?;
    table_by(alloc, log.rows().len() + 1, &incoming, &potential)
}
