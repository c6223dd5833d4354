//! That the rules are exact.

ghost use Rattle.mtl_encode.specs.Exact.{MeaningsSatisfyRules, RulesAreExact};

use axiom_rules::rules_hold;
use formula_arena::{cores_are_cores, nodes_are_subtrees, truth_of_core};
use mt_model::truth_by_rows;

/// Truth values that satisfy the rules that aren't needless for a formula and a value sought, and a timing that
/// the log admits and that gives the order atoms in them their truth values: in that timing the formula has the
/// value.
pub fn rules_are_exact()
    ensures { RulesAreExact }
{
    cores_are_cores();
    nodes_are_subtrees();
    truth_of_core();
    truth_by_rows();
}

/// What the atoms mean in a timing that the log admits and that gives the formula the value sought are truth
/// values that satisfy the rules and agree with the timing.
pub fn meanings_satisfy_rules()
    ensures { MeaningsSatisfyRules }
{
    rules_hold();
}
