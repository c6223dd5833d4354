//! What holds of potentials and closed walks whatever finds them.

ghost use Rattle.neg_cycle.specs.Laws.{PotentialExcludesCycles, SystemLimits, SystemsHaveOutcomes};

/// Where numbers meet every edge, no closed walk over the edges has a negative sum: no system has
/// both outcomes.
pub fn potential_excludes_cycles()
    ensures law { PotentialExcludesCycles }
{}

/// Each system within the limits has a potential, or a closed walk of negative sum that visits no
/// node twice. `solve` finds it unless memory runs out.
pub fn systems_have_outcomes()
    ensures law { SystemsHaveOutcomes }
{}

/// The numbers that limit systems.
pub fn limits_are_numbers()
    ensures law { SystemLimits }
{}
