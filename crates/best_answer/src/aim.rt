//! What is sought in the timings of a log.

ghost use Rattle.std.specs.Prelude.{◌≡◌, ◌≤◌, None};
ghost use Rattle.mt_model.specs.State.{unknown_host};

use mt_model::Log;
use question::Nodes;

/// A value of a formula that is sought in the timings of a log, and how many conflicts each search may have. The
/// formula's hosts are in the log.
#[derive(Clone, Copy)]
pub struct Aim<'a> {
    pub log: &'a Log,
    pub nodes: &'a Nodes<'a>,
    pub value: bool,
    /// From 1 to 1,000,000.
    pub budget: u32,
    ghost hosts: { unknown_host log.now nodes.now ≡ None },
    ghost some: { 1 ≤ budget },
    ghost most: { budget ≤ 1000000 },
}
