//! The audit of walks by their text, of which one bound at a time is read.

ghost use Rattle.std.specs.Prelude.{List, MatchOption};
ghost use Rattle.mt_model.specs.declared.step.Step.{Step};
ghost use Rattle.skew_bounds.specs.RowEdges.{IsEdgeTableOf};
ghost use Rattle.proof_check.specs.Walking.{HasWalked};
ghost use Rattle.verdict.specs.OfOutlines.{AreBoundsOf, IsWalkAudit};

use crate::{Audit, Part};
use mt_model::Log;
use proof_check::CycleWalk;
use report_text::read_bound;
use skew_bounds::EdgeTable;

// The walk over so many bounds of which the text is given. None of them is kept.
fn walk_of(log: &Log, table: &EdgeTable, count: u32, text: &[u8]) -> Option<CycleWalk>
    requires table { IsEdgeTableOf log.now table.now }
    ensures { (steps : List Step) → AreBoundsOf count text.now steps → MatchOption result ⊥ (HasWalked log.now steps) }
{
    let mut walk = CycleWalk::new();
    let mut rest = text;
    for _i in 0..count {
        let Some((step, after)) = read_bound(rest) else {
            return None;
        };
        walk.step(log, table, step);
        rest = after;
    }
    Some(walk)
}

/// What an audit says of a walk of so many bounds, on as many events as the log has rows.
pub fn audit_of_bounds(log: &Log, table: &EdgeTable, count: u32, text: &[u8]) -> Audit
    requires table { IsEdgeTableOf log.now table.now }
    ensures { (steps : List Step) → AreBoundsOf count text.now steps → IsWalkAudit log.now steps result }
{
    let part = Part::Inconsistent;
    let Some(walk) = walk_of(log, table, count, text) else {
        return Audit::Refused { part, line: 0 };
    };
    match walk.place() {
        None => Audit::Accepted,
        Some(line) => Audit::Refused { part, line },
    }
}
