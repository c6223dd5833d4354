//! Walks over steps that come one at a time.

ghost use Rattle.std.specs.Prelude.{◌≡◌, ◌↔◌, ◌+◌, ◌-◌, ◌*◌, ◌<◌, ◌≤◌, ◌^◌, [], ◌∷◌, ◌++◌, List, Option, option_map, IfSome, IsTrue, None, ℤ};
ghost use Rattle.mt_model.specs.declared.step.Step.{Step};
ghost use Rattle.mt_model.specs.Log.{Logged};
ghost use Rattle.mt_model.specs.Timing.{Admissible};
ghost use Rattle.mt_model.specs.Walks.{Edge as WalkEdge};
ghost use Rattle.skew_bounds.specs.Edges.{edge_in};
ghost use Rattle.skew_bounds.specs.RowEdges.{IsEdgeTableOf};
ghost use Rattle.proof_check.specs.Cycles.{IsCycle, IsPlace};
ghost use Rattle.proof_check.specs.Walking.{HasCome, HasRoom, HasWalked, IsCyclic, IsNear, IsRoomy, LeadsOn, LeadsUpTo, OfNumberedStep, OfStep};

use crate::walk::{Walk, bound_edge};
use mt_model::{Log, Step, conflict_excludes_timings};
use neg_cycle::Edge;
use skew_bounds::EdgeTable;

// How far steps lead.
#[derive(Clone, Copy)]
enum Course {
    // There is no step yet.
    Start,
    // Each step begins where the one before ends.
    Along(Walk),
    // The first step, from 1, that has no edge or doesn't begin where the one before ends.
    Stopped(u32),
}

// Where a walk comes to by its step of that number.
fn gone_on(walk: Walk, number: u32, edge: Option<Edge>) -> Course
    requires some { 1 ≤ number }
    requires room { IsNear ((number - 1) * 2 ^ 90) walk.sum }
    requires near { IfSome edge (λ x. IsNear (2 ^ 90) x.bound) }
    ensures room { IsRoomy number result }
    ensures leads { OfNumberedStep number (option_map edge_in edge) (LeadsOn walk result) }
{
    match walk.then(edge) {
        Some(further) => Course::Along(further),
        None => Course::Stopped(number),
    }
}

// How far the first step leads.
fn begun(edge: Option<Edge>) -> Course
    requires near { IfSome edge (λ x. IsNear (2 ^ 90) x.bound) }
    ensures room { IsRoomy 1 result }
    ensures leads { (edges : Step → Option WalkEdge) (step : Step) → option_map edge_in edge ≡ edges step → LeadsUpTo edges (step ∷ []) result }
{
    match edge {
        Some(first) => gone_on(Walk::at(first.from), 1, edge),
        None => Course::Stopped(1),
    }
}

impl Course {
    // How far steps lead with one more, which has that number.
    fn then(self, number: u32, edge: Option<Edge>) -> Course
        requires some { 1 ≤ number }
        requires room { IsRoomy (number - 1) self }
        requires near { IfSome edge (λ x. IsNear (2 ^ 90) x.bound) }
        ensures room { IsRoomy number result }
        ensures leads { OfNumberedStep number (option_map edge_in edge) (λ edges steps more. LeadsUpTo edges steps self → LeadsUpTo edges more result) }
    {
        match self {
            Course::Start => begun(edge),
            Course::Along(walk) => gone_on(walk, number, edge),
            Course::Stopped(place) => Course::Stopped(place),
        }
    }
}

/// A walk over steps that are given one at a time, of which it keeps none.
#[derive(Clone, Copy)]
pub struct CycleWalk {
    // How many steps were given.
    count: u32,
    course: Course,
}

impl CycleWalk {
    /// The walk without steps.
    pub fn new() -> CycleWalk
        ensures count { result.count ≡ 0 }
        ensures room { HasRoom result }
        ensures walked { (edges : Step → Option WalkEdge) → HasCome edges [] result }
    {
        CycleWalk {
            count: 0,
            course: Course::Start,
        }
    }

    // The walk with a step more, whose edge is given, and none where it has none.
    pub(crate) fn then(self, edge: Option<Edge>) -> CycleWalk
        requires few { self.count + 1 < 2 ^ 32 }
        requires room { HasRoom self }
        requires near { IfSome edge (λ x. IsNear (2 ^ 90) x.bound) }
        ensures count { result.count ≡ self.count + 1 }
        ensures room { HasRoom result }
        ensures walked { OfStep (option_map edge_in edge) (λ edges steps more. HasCome edges steps self → HasCome edges more result) }
    {
        let count = self.count + 1;
        CycleWalk {
            count,
            course: self.course.then(count, edge),
        }
    }

    // Whether it is closed and of negative sum.
    pub(crate) fn is_negative_cycle(self) -> bool
        ensures { (edges : Step → Option WalkEdge) (steps : List Step) → HasCome edges steps self → IsTrue result ↔ IsCyclic edges steps }
    {
        match self.course {
            Course::Along(walk) => walk.is_negative_cycle(),
            Course::Start | Course::Stopped(_) => false,
        }
    }

    /// Goes on by a step. The edges of the log's bounds are looked up in their table.
    pub fn step(&mut self, log: &Log, table: &EdgeTable, step: Step)
        requires table { IsEdgeTableOf log.now table.now }
        requires few { self.old.count + 1 < 2 ^ 32 }
        requires room { HasRoom self.old }
        ensures count { self.new.count ≡ self.old.count + 1 }
        ensures room { HasRoom self.new }
        ensures walked { (steps : List Step) → HasWalked log.now steps self.old → HasWalked log.now (steps ++ step ∷ []) self.new }
    {
        *self = self.then(bound_edge(log, Some(table), step));
    }

    /// What `check_cycle` says of the steps that were given.
    pub fn place(self) -> Option<u32>
        ensures accepted { (log : Logged) (steps : List Step) → HasWalked log steps self → (result ≡ None) ↔ IsCycle log steps }
        ensures place { (log : Logged) (steps : List Step) → HasWalked log steps self → IfSome result (λ n. IsPlace log steps n) }
        ensures excludes { (log : Logged) (steps : List Step) → HasWalked log steps self → result ≡ None → (t : List ℤ) → Admissible log t → ⊥ }
    {
        conflict_excludes_timings();
        if self.is_negative_cycle() {
            return None;
        }
        match self.course {
            Course::Start => Some(0),
            Course::Along(_) => Some(self.count),
            Course::Stopped(place) => Some(place),
        }
    }
}
