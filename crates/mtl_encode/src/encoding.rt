//! The problem of a question and a value.

ghost use Rattle.std.specs.Prelude.{◌≡◌, ◌≢◌, ◌≤◌, ◌+◌, ◌^◌, AllPairs, length, IfOk};
ghost use Rattle.mt_model.specs.Form.{Form};
ghost use Rattle.skew_bounds.specs.System.{IsSystemOf};
ghost use Rattle.skew_bounds.specs.Tight.{IsConsistent, IsTight};
ghost use Rattle.formula_arena.specs.Nodes.{IsArena, nodes_of};
ghost use Rattle.question.specs.Size.{IsSmall};
ghost use Rattle.axiom_rules.specs.Sought.{sought_of};
ghost use Rattle.mtl_encode.specs.Asked.{AreAsked};
ghost use Rattle.mtl_encode.specs.Growth.{AreClauses};
ghost use Rattle.mtl_encode.specs.Instances.{out_by};
ghost use Rattle.mtl_encode.specs.Kept.{Kept};
ghost use Rattle.mtl_encode.specs.Listing.{ListsRules};
ghost use Rattle.mtl_encode.specs.Models.{GivesTimings};
ghost use Rattle.mtl_encode.specs.Problems.{Fits};

use crate::asked::{AskedClauses, Most, asked_of};
use crate::clauses::Clauses;
use crate::known::known_by;
use crate::scene::Scene;
use crate::windows::Windows;
use crate::{Part, Problem, rules_are_exact};
use axiom_rules::Rules;
use formula_arena::{Arena, cores_are_cores};
use mt_model::{Log, NodeId, bounds_are_admissible, conflict_excludes_timings, log_is_valid};
use question::Question;
use skew_bounds::{BoundSystem, Consistency, Tight, node_count, settle_by, system_of, tight_by};
use std::alloc::{AllocError, Global};

// The problem of these clauses for what is sought, with the bounds of its log and their edges.
fn joined(sought: &Rules, clauses: Clauses, system: BoundSystem) -> Problem
    requires clauses { AreClauses sought.now clauses }
    requires few_rules { length clauses.rules ≤ 2 ^ 29 }
    requires few_atoms { length clauses.atoms ≤ 2 ^ 29 }
    requires system { IsSystemOf sought.now.log system }
    ensures fits { Fits sought.now result }
    ensures rules { result.rules ≡ clauses.rules }
{
    log_is_valid(sought.log());
    let Clauses { db, rules, atoms } = clauses;
    let BoundSystem { bounds, edges, .. } = system;
    Problem {
        db,
        rules,
        atoms,
        bounds,
        edges,
        nodes: node_count(sought.log()),
    }
}

// The problem for what is sought, of which the number of nodes is told, with the bounds of its log and their edges.
fn problem_of(
    alloc: Global,
    sought: &Rules,
    nodes: u32,
    system: BoundSystem,
    tight: &Tight,
) -> Result<Problem, AllocError>
    requires nodes { nodes ≡ length sought.now.trees }
    requires arena { IsArena sought.now.trees }
    requires small { IsSmall sought.now.log sought.now.trees }
    requires system { IsSystemOf sought.now.log system }
    requires tight { IsTight sought.now.log tight.now }
    ensures fits { IfOk result (Fits sought.now) }
    ensures lists { IfOk result (λ p. ListsRules sought.now (out_by tight.now sought.now) p.rules) }
{
    cores_are_cores();
    log_is_valid(sought.log());
    let mut clauses = Clauses::new(alloc);
    clauses.add_all(alloc, sought, tight, nodes)?;
    let ordered = clauses.in_order(alloc, sought)?;
    Ok(joined(sought, ordered, system))
}

/// The problem of a question and the value that is sought of its formula, where some timing is admissible and how far apart
/// the log's events are is known: the clauses of all rules that have one and aren't needless, and the bounds with their
/// edges. An error is want of memory.
pub fn encode_by(
    alloc: Global,
    question: Question,
    value: bool,
    tight: &Tight,
) -> Result<Problem, AllocError>
    requires small { IsSmall question.log (nodes_of question.form) }
    requires tight { IsTight question.log tight.now }
    ensures fits { IfOk result (Fits (sought_of question.entry.log question.entry.form value)) }
    ensures kept { IfOk result (λ p. Kept question.entry.log question.entry.form value p.rules) }

    // What satisfies the problem gives an admissible timing in which the formula has the value.
    ensures exact { IfOk result (GivesTimings question.entry.log question.entry.form value) }
{
    rules_are_exact();
    bounds_are_admissible();
    log_is_valid(question.log());
    let nodes = question.nodes();
    let count = nodes.arena().len();
    let sought = Rules::new(alloc, question.log(), nodes.arena(), nodes.root(), value)?;
    let problem = problem_of(alloc, &sought, count, question.into_system(), tight)?;
    // For the proof: the call says that each atom has one variable.
    let _ = problem.atoms.len();
    Ok(problem)
}

/// The problem of a log, the nodes of a formula and the value that is sought of the root, where some timing is admissible:
/// the clauses of all rules that have one and aren't needless, and the bounds with their edges. An error is want of memory.
pub fn encode(
    alloc: Global,
    log: &Log,
    arena: &Arena,
    root: NodeId,
    value: bool,
) -> Result<Problem, AllocError>
    requires size { IsSmall log.now arena.now }
    requires consistent { IsConsistent log.now }

    // Where the nodes are those of a formula, the root being the last.
    ensures fits { IfOk result (λ p. (f : Form) → arena.now ≡ nodes_of f → root + 1 ≡ length arena.now → Fits (sought_of log.now f value) p) }
    ensures kept { IfOk result (λ p. (f : Form) → arena.now ≡ nodes_of f → root + 1 ≡ length arena.now → Kept log.now f value p.rules) }

    // What satisfies the problem gives an admissible timing in which the formula has the value.
    ensures exact { IfOk result (λ p. (f : Form) → arena.now ≡ nodes_of f → root + 1 ≡ length arena.now → GivesTimings log.now f value p) }
{
    rules_are_exact();
    bounds_are_admissible();
    conflict_excludes_timings();
    log_is_valid(log);
    let system = system_of(alloc, log)?;
    match settle_by(alloc, log, &system)? {
        Consistency::Timing(times) => {
            let tight = tight_by(alloc, log, &system, times.as_slice())?;
            let sought = Rules::new(alloc, log, arena, root, value)?;
            let problem = problem_of(alloc, &sought, arena.len(), system, &tight)?;
            // For the proof: the call says that each atom has one variable.
            let _ = problem.atoms.len();
            Ok(problem)
        }
        Consistency::Conflict(_) => unreachable!(),
    }
}

// The clauses of the instances that the value sought asks for, with so much of the long ones, over variables in the order in
// which a search is to try their atoms.
fn ordered_of(
    alloc: Global,
    rules: &Rules,
    arena: &Arena,
    tight: &Tight,
    most: Most,
) -> Result<AskedClauses, AllocError>
    ensures { IfOk result (λ asked. AreAsked rules.now asked.clauses) }
{
    let windows = Windows::new(alloc, tight, rules.events())?;
    let known = known_by(alloc, rules, arena, tight, &windows)?;
    let scene = Scene {
        rules,
        arena,
        tight,
        windows: &windows,
        known: &known,
    };
    let AskedClauses { clauses, is_cut } = asked_of(alloc, scene, most)?;
    let ordered = clauses.in_order(alloc, rules)?;
    Ok(AskedClauses {
        clauses: ordered,
        is_cut,
    })
}

/// The problem of the instances that a value sought of a question's formula can ask for: of each literal that has to be true
/// those that say what follows, from the rows on that can be first, by windows over the rows' least times. An instance is
/// left out where the bounds make its clause true, and one whose clause is long where as much as `most` of its kind is
/// there. An error is want of memory.
pub fn encode_asked(
    alloc: Global,
    question: Question,
    value: bool,
    tight: &Tight,
    most: Most,
) -> Result<Part, AllocError>
    ensures fits { IfOk result (λ part. Fits (sought_of question.entry.log question.entry.form value) part.problem) }

    // Each rule is there once.
    ensures once { IfOk result (λ part. AllPairs (λ q r. q ≢ r) part.problem.rules) }
{
    log_is_valid(question.log());
    let nodes = question.nodes();
    let rules = Rules::new(alloc, question.log(), nodes.arena(), nodes.root(), value)?;
    let asked = ordered_of(alloc, &rules, nodes.arena(), tight, most)?;
    Ok(Part {
        problem: joined(&rules, asked.clauses, question.into_system()),
        is_cut: asked.is_cut,
    })
}
