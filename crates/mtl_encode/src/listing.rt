//! Goes through the instances of the rules in order, and adds those that have a clause and aren't needless.

ghost use Rattle.std.specs.Prelude.{◌≡◌, ◌≤◌, ◌<◌, [], ◌++◌, ℕ, List, length, map, slice_index, true, false, None, OnOk, is_ok};
ghost use Rattle.skew_bounds.specs.Differences.{Differences};
ghost use Rattle.axiom_rules.specs.Clauses.{clause_of};
ghost use Rattle.axiom_rules.specs.NodeShapes.{reach_in, shape_at};
ghost use Rattle.mtl_encode.specs.Growth.{AreClauses, Gains, HasRoom};
ghost use Rattle.mtl_encode.specs.Instances.{count_of as count_of_argument, instances, is_of_reach as is_number_of_reach, left_by, of_number, out_by, rule_at, three_left_by, with_one};
ghost use Rattle.mtl_encode.specs.Seconds.{AreCounts, AreEvents};

use crate::clauses::Clauses;
use crate::needless::{is_needless_over_span, is_needless_throughout, needs_no_span};
use crate::pulses::Events;
use crate::workspace::Workspace;
use axiom_rules::{Argument, MAX_RULE, Rule, Rules, Subject, arguments_of, subject_of};
use skew_bounds::Tight;
use std::alloc::{AllocError, Global};

// One more than the greatest argument of its kind.
fn count_of(rules: &Rules, nodes: u32, argument: Argument) -> u32
    requires { nodes ≡ length rules.now.trees }
    ensures { result ≡ count_of_argument rules.now argument }
{
    match argument {
        Argument::ANode => nodes,
        Argument::AnEvent | Argument::AChange | Argument::APulse => rules.events(),
        Argument::Unused => 1,
    }
}

// One more than the greatest arguments of these kinds.
fn counts_of(rules: &Rules, nodes: u32, arguments: [Argument; 4]) -> [u32; 4]
    requires { nodes ≡ length rules.now.trees }
    ensures { result ≡ map (count_of_argument rules.now) arguments }
{
    arguments.map(|argument| count_of(rules, nodes, argument))
}

// Whether rules of the number are about untils and sinces.
fn is_of_reach(number: u8) -> bool
    ensures { result ≡ is_number_of_reach number }
{
    matches!(subject_of(number), Some(Subject::Reach))
}

// Whether rules of the number are about untils and sinces, and this node is none.
fn passes_over(rules: &Rules, number: u8, node: u32) -> bool
    ensures of_reach { result ≡ true → is_number_of_reach number ≡ true }
    ensures no_reach { result ≡ true → reach_in (shape_at rules.now node) ≡ None }
{
    is_of_reach(number) && !rules.is_reach(node)
}

// Whether no rule of the number with this first argument is kept.
fn keeps_none(rules: &Rules, number: u8, a: u32) -> bool
    ensures { result ≡ true → (d : Differences) (counts : List ℕ) → with_one rules.now (out_by d rules.now) number counts a ≡ [] }
{
    passes_over(rules, number, a) || is_needless_throughout(rules, number, a)
}

// How many third arguments are gone through where the first one is this: a proposition has rules for its changes and its
// pulses alone.
fn third_count(rules: &Rules, number: u8, counts: [u32; 4], a: u32) -> u32
    ensures at_most { result ≤ slice_index counts 2 }
    ensures no_clause { (b c d : ℕ) → result ≤ c → c < slice_index counts 2 → is_ok (clause_of rules.now (rule_at number a b c d)) ≡ false }
{
    let Some(arguments) = arguments_of(number) else {
        return counts[2];
    };
    match arguments[2] {
        Argument::AChange => counts[2].min(rules.change_count(a)),
        Argument::APulse => counts[2].min(rules.pulse_count(a)),
        Argument::ANode | Argument::AnEvent | Argument::Unused => counts[2],
    }
}

/// What the instances of rules are listed by: the rules, how far the events of their log are apart, and these events.
#[derive(Clone, Copy)]
pub struct Source<'a> {
    pub rules: &'a Rules,
    pub tight: &'a Tight,
    pub events: &'a Events,
}

impl Source<'_> {
    // Whether rules of the number are about the events of a span, and no span is needed from event i to event j.
    fn passes_over_span(self, number: u8, k: u32, i: u32, j: u32) -> bool
        ensures { result ≡ true → (counts : List ℕ) → three_left_by self.entry.tight.now self.entry.rules.now number counts k i j ≡ [] }
    {
        is_needless_over_span(number) && needs_no_span(self.rules, self.tight, k, i, j)
    }
}

impl Clauses {
    // Adds the instances of a rule whose arguments are below these counts.
    fn add_instances(
        &mut self,
        workspace: &mut Workspace,
        source: Source<'_>,
        number: u8,
        counts: [u32; 4],
    ) -> Result<(), AllocError>
        requires events { AreEvents source.rules.now source.events.now }
        requires counts { AreCounts source.rules.now number counts }
        requires clauses { AreClauses source.rules.now self.old }
        requires room { HasRoom source.rules.now (self.old.rules ++ left_by source.tight.now source.rules.now number counts) }
        ensures { OnOk result (Gains source.entry.rules.now self.old self.new (left_by source.entry.tight.now source.entry.rules.now number counts)) }
    {
        for a in 0..counts[0] {
            if keeps_none(source.rules, number, a) {
                continue;
            }
            let seconds = source.events.seconds(source.rules, number, counts, a);
            let thirds = third_count(source.rules, number, counts, a);
            for b in seconds {
                for c in 0..thirds {
                    if source.passes_over_span(number, a, *b, c) {
                        continue;
                    }
                    for d in 0..counts[3] {
                        let args = [a, *b, c, d];
                        self.add(workspace, source.rules, source.tight, Rule { number, args })?;
                    }
                }
            }
        }
        Ok(())
    }

    // Adds the rules of a number.
    fn add_number(
        &mut self,
        workspace: &mut Workspace,
        source: Source<'_>,
        nodes: u32,
        number: u8,
    ) -> Result<(), AllocError>
        requires nodes { nodes ≡ length source.rules.now.trees }
        requires events { AreEvents source.rules.now source.events.now }
        requires clauses { AreClauses source.rules.now self.old }
        requires room { HasRoom source.rules.now (self.old.rules ++ of_number source.rules.now (out_by source.tight.now source.rules.now) number) }
        ensures { let s = source.entry in
            OnOk result (Gains s.rules.now self.old self.new (of_number s.rules.now (out_by s.tight.now s.rules.now) number)) }
    {
        match arguments_of(number) {
            Some(arguments) => {
                let counts = counts_of(source.rules, nodes, arguments);
                self.add_instances(workspace, source, number, counts)
            }
            None => Ok(()),
        }
    }

    /// Adds all rules that have a clause and aren't needless.
    pub fn add_all(
        &mut self,
        alloc: Global,
        rules: &Rules,
        tight: &Tight,
        nodes: u32,
    ) -> Result<(), AllocError>
        requires nodes { nodes ≡ length rules.now.trees }
        requires clauses { AreClauses rules.now self.old }
        requires room { HasRoom rules.now (self.old.rules ++ instances rules.now (out_by tight.now rules.now)) }
        ensures { OnOk result (Gains rules.now self.old self.new (instances rules.now (out_by tight.now rules.now))) }
    {
        let events = Events::new(alloc, rules)?;
        let source = Source {
            rules,
            tight,
            events: &events,
        };
        let mut workspace = Workspace::new(alloc);
        for number in 0..MAX_RULE + 1 {
            self.add_number(&mut workspace, source, nodes, number)?;
        }
        Ok(())
    }
}
