//! What holds of all clauses of rules.

ghost use Rattle.axiom_rules.specs.Laws.{ClausesHaveAtomsOnce, RulesAreWithinTable, RulesHold};

use formula_arena::{cores_are_cores, nodes_are_subtrees, truth_of_core};
use mt_model::before_is_not_later;

/// Each clause of a rule holds in every timing that the log admits; that of the rule on the value sought
/// holds in each timing that gives the value.
pub fn rules_hold()
    ensures { RulesHold }
{
    cores_are_cores();
    nodes_are_subtrees();
    truth_of_core();
    before_is_not_later();
}

/// In the clause of a rule no atom stands twice.
pub fn clauses_have_atoms_once()
    ensures { ClausesHaveAtomsOnce }
{}

/// A rule that has a clause has a number of the table and 0 for each argument that it doesn't use. Its clause has
/// at most five literals more than the log has rows, and its order atoms and those of one instant are over rows of
/// the log.
pub fn rules_are_within_table()
    ensures { RulesAreWithinTable }
{}
