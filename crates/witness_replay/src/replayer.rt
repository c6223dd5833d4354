//! The evaluator of one log and one formula, with the memory that it takes beforehand.

ghost use Rattle.std.specs.Prelude.{◌≡◌, ◌↔◌, ◌<◌, ◌≤◌, ◌*◌, length, All, IsTrue, IfOk, OnOk, None, Err, ◌^◌};
ghost use Rattle.mt_model.specs.Bounds.{bounds_of, first_broken as first_broken_of};
ghost use Rattle.mt_model.specs.Form.{Form, form_of};
ghost use Rattle.mt_model.specs.Log.{IsWithin};
ghost use Rattle.mt_model.specs.State.{unknown_host};
ghost use Rattle.mt_model.specs.Timing.{Admissible};
ghost use Rattle.mt_model.specs.Truth.{truth};
ghost use Rattle.mt_model.specs.declared.limits.TheConstants.{MAX_TIME};
ghost use Rattle.formula_arena.specs.Cores.{core_of};
ghost use Rattle.formula_arena.specs.Nodes.{nodes_of, tree_at};
ghost use Rattle.formula_arena.specs.declared.arena.TheConstants.{MAX_NODES};

use crate::evaluator::truth_at_first;
use crate::timeline::{Moment, Timeline, sort_rows};
use formula_arena::{Arena, ArenaFault, nodes_are_subtrees, truth_of_core};
use mt_model::{Bound, BoundList, Formula, Log, NodeId, RowReadings};
use question::{Question, question_is_asked};
use skew_bounds::{bounds, first_broken};
use std::alloc::{AllocError, Global};
use std::marker::Model;

/// Judges timings of one log by one formula, in memory that was taken when it was made.
///
/// Contracts see it as the log and the core of the formula, of which it keeps copies. Its table has a truth
/// value for each node of the formula at each row, and its moments are the rows of a timing; each timing writes
/// them anew.
#[derive(Drop)]
pub struct Replayer {
    log: Log,
    arena: Arena,
    root: NodeId,
    bounds: BoundList,
    readings: RowReadings,
    moments: Vec<Moment>,
    table: Vec<bool>,
}

impl Model for Replayer {
    ghost use Rattle.std.specs.Coded.{codes};
    ghost use Rattle.formula_arena.specs.CodedForms.{coded_form};
    ghost use Rattle.formula_arena.specs.Nodes.{tree_at};
    ghost use Rattle.witness_replay.specs.Judged.{IsReady, Judged};

    ghost Value = { Judged };

    ghost coded = { Prim.hlevel (codes, coded_form (Prim.hlevel codes)) };

    ghost view = { λ r. record { log = r.log; core = tree_at r.arena r.root } };

    ghost invariant = { λ r. IsReady r.log r.arena r.root r.bounds r.readings r.moments.items r.table.items };
}

// A truth value for each of so many nodes at each of so many rows.
fn make_table(alloc: Global, nodes: u32, rows: usize) -> Result<Vec<bool>, AllocError>
    requires { rows < 2 ^ 32 }
    ensures { IfOk result (λ table. length table.items ≡ nodes * rows) }
{
    vec![in alloc; false; nodes as usize * rows]
}

// A moment for each of so many rows.
fn make_moments(alloc: Global, rows: usize) -> Result<Vec<Moment>, AllocError>
    ensures { IfOk result (λ moments. length moments.items ≡ rows) }
{
    vec![in alloc; Moment { time: 0, row: 0 }; rows]
}

// A copy of a log, and its bounds.
fn copy_with_bounds(alloc: Global, log: &Log) -> Result<(Log, BoundList), AllocError>
    ensures log { IfOk result (λ r. r.0 ≡ log.now) }
    ensures bounds { IfOk result (λ r. r.1 ≡ bounds_of log.now) }
{
    let log = log.copy(alloc)?;
    let bounds = bounds(alloc, &log)?;
    Ok((log, bounds))
}

impl Replayer {
    /// Takes the memory for a log and a formula, whose hosts are in the log. With more than 512 nodes the
    /// answer is `TooManyNodes` or want of memory; with no more it is never `TooManyNodes`.
    pub fn new(alloc: Global, log: &Log, f: &Formula) -> Result<Replayer, ArenaFault>
        requires { unknown_host log.now (form_of f.now) ≡ None }
        ensures log { IfOk result (λ r. r.log ≡ log.now) }
        ensures core { IfOk result (λ r. r.core ≡ core_of (form_of f.now)) }
        ensures enough { OnOk result (length (nodes_of (form_of f.now)) ≤ MAX_NODES) }
        ensures too_many { result ≡ Err ArenaFault.TooManyNodes → MAX_NODES < length (nodes_of (form_of f.now)) }
    {
        let mut arena = Arena::new(alloc);
        let root = arena.intern(f)?;
        let moments = make_moments(alloc, log.rows().len())?;
        let table = make_table(alloc, arena.len(), log.rows().len())?;
        let (log, bounds) = copy_with_bounds(alloc, log)?;
        let readings = log.readings_by_row(alloc)?;
        Ok(Replayer {
            log,
            arena,
            root,
            bounds,
            readings,
            moments,
            table,
        })
    }

    /// The first bound of the log, in the order of its bounds, that times break, and None exactly where the
    /// log admits them. There is a time for each row. Takes no memory.
    pub fn broken(&self, times: &[i128]) -> Option<Bound>
        requires count { length times.now ≡ length self.now.log.rows }
        requires range { All (IsWithin MAX_TIME) times.now }
        ensures bound { result ≡ first_broken_of self.now.log times.now }
        ensures admissible { (result ≡ None) ↔ Admissible self.now.log times.now }
    {
        first_broken(
            &self.log,
            self.readings.as_slice(),
            self.bounds.as_slice(),
            times,
        )
    }

    /// Whether the log admits times. There is a time for each row. Takes no memory.
    pub fn admits(&self, times: &[i128]) -> bool
        requires count { length times.now ≡ length self.now.log.rows }
        requires range { All (IsWithin MAX_TIME) times.now }
        ensures admissible { IsTrue result ↔ Admissible self.now.log times.now }
    {
        self.broken(times).is_none()
    }

    /// The truth of the formula at the first position of a timing. There is a time for each row. Takes no
    /// memory, and nothing of the timings before plays a part.
    pub fn truth(&mut self, times: &[i128]) -> bool
        requires count { length times.now ≡ length self.old.log.rows }
        requires range { All (IsWithin MAX_TIME) times.now }
        ensures value { (f : Form) → core_of f ≡ self.old.core → result ≡ truth self.old.log times.now 0 f }
        ensures kept { self.new ≡ self.old }
    {
        truth_of_core();
        sort_rows(times, &mut self.moments);
        let moments = self.moments.as_slice();
        let timeline = Timeline { times, moments };
        truth_at_first(&self.log, &self.arena, self.root, timeline, &mut self.table)
    }
}

/// The truth of a question's formula at the first position of a timing of its log. There is a time for each row. It takes
/// the memory of a replayer, and no copies. An error is want of memory.
pub fn truth_by(alloc: Global, question: &Question, times: &[i128]) -> Result<bool, AllocError>
    requires count { length times.now ≡ length question.now.log.rows }
    requires range { All (IsWithin MAX_TIME) times.now }
    ensures value { IfOk result (λ v. v ≡ truth question.now.log times.now 0 question.now.form) }
{
    truth_of_core();
    nodes_are_subtrees();
    question_is_asked(question);
    // For the proof: the call says what a formula holds to.
    let _ = question.formula().tree();
    let (log, nodes) = (question.log(), question.nodes());
    let mut moments = make_moments(alloc, log.rows().len())?;
    let mut table = make_table(alloc, nodes.arena().len(), log.rows().len())?;
    sort_rows(times, &mut moments);
    let moments = moments.as_slice();
    let timeline = Timeline { times, moments };
    Ok(truth_at_first(log, nodes.arena(), nodes.root(), timeline, &mut table))
}
