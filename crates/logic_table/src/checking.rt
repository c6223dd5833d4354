//! The check of lines.

ghost use Rattle.std.specs.Prelude.{◌≡◌, None};
ghost use Rattle.mt_model.specs.Form.{form_of};
ghost use Rattle.mt_model.specs.State.{unknown_host};

use mt_model::{Formula, Log};
use proof_check::{Check, Checker};
use proof_log::Line;
use std::alloc::Global;

/// What the checker finds of lines, where there is memory.
pub fn checked(alloc: Global, log: &Log, f: &Formula, value: bool, lines: &[Line]) -> Option<Check>
    requires hosts { unknown_host log.now (form_of f.now) ≡ None }
{
    if lines.len() >= 1 << 32 {
        return None;
    }
    let mut checker = Checker::new(alloc, log, f, value).ok()?;
    checker.check(lines).ok()
}
