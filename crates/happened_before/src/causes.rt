//! The events directly before each event of a log, and which events wait for them.

ghost use Rattle.std.specs.Prelude.{◌≡◌, ℕ, ◌<◌, length, All, IfNone, IfOk, IfSome, true, false};
ghost use Rattle.happened_before.specs.Causes.{AreWithin, IsAmong, IsReady, IsStuck, IsWhole, causes_of_row, causes_of_rows, is_finished};

use mt_model::Log;
use std::alloc::{AllocError, Global};

/// The events directly before an event: the previous one of its host, and the send of the message that
/// it receives.
#[derive(Clone, Copy)]
pub struct Causes {
    pub previous: Option<usize>,
    pub send: Option<usize>,
}

// The cause, unless it is finished.
fn waiting(cause: Option<usize>, finished: &[bool]) -> Option<usize>
    requires { (e : ℕ) → cause ≡ Some e → e < length finished.now }
    ensures same { IfSome result (λ e. cause ≡ Some e) }
    ensures some { IfSome result (λ e. is_finished finished.now e ≡ false) }
    ensures none { IfNone result ((e : ℕ) → cause ≡ Some e → is_finished finished.now e ≡ true) }
{
    cause.filter(|e| !finished[*e])
}

impl Causes {
    /// One of them that isn't finished.
    pub fn waiting(self, finished: &[bool]) -> Option<usize>
        requires { AreWithin (length finished.now) self }
        ensures among { IfSome result (IsAmong self) }
        ensures some { IfSome result (λ e. is_finished finished.now e ≡ false) }
        ensures none { IfNone result ((e : ℕ) → IsAmong self e → is_finished finished.now e ≡ true) }
    {
        waiting(self.previous, finished).or(waiting(self.send, finished))
    }
}

fn causes_in(log: &Log, f: usize) -> Causes
    requires { f < length log.now.rows }
    ensures { result ≡ causes_of_row log.now f }
{
    Causes {
        previous: log.row_before(f),
        send: log.send_for(f),
    }
}

/// The causes of each row of a log, in the order of the rows.
pub fn causes_of(alloc: Global, log: &Log) -> Result<Vec<Causes>, AllocError>
    ensures { IfOk result (λ table. table.items ≡ causes_of_rows log.now) }
{
    (0..log.rows().len())
        .map(|f| causes_in(log, f))
        .collect(alloc)
}

/// The first event that isn't finished, but whose causes all are.
pub fn ready(table: &[Causes], finished: &[bool]) -> Option<usize>
    requires flags { length finished.now ≡ length table.now }
    requires whole { IsWhole table.now }
    ensures ready { IfSome result (IsReady table.now finished.now) }
    ensures stuck { IfNone result (IsStuck table.now finished.now) }
{
    for (e, causes) in table.iter().enumerate() {
        if !finished[e] && causes.waiting(finished).is_none() {
            return Some(e);
        }
    }
    None
}

/// The first event that isn't finished.
pub fn first_waiting(finished: &[bool]) -> Option<usize>
    ensures within { IfSome result (λ e. e < length finished.now) }
    ensures waits { IfSome result (λ e. is_finished finished.now e ≡ false) }
    ensures none { IfNone result (All (λ f. f ≡ true) finished.now) }
{
    finished.iter().position(|done| !*done)
}
