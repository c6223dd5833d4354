//! The rows directly before a row: on its host, and by the message that it receives.

ghost use Rattle.std.specs.Prelude.{◌≡◌, ◌↔◌, ◌<◌, length, position, IfSome, IsTrue, Some};
ghost use Rattle.mt_model.specs.Log.{sent_by};
ghost use Rattle.mt_model.specs.Timing.{is_send_of, previous_row, send_of};

use crate::spans::host_at;
use crate::{Log, Row};

/// Whether a row sends the message.
pub fn sends(row: &Row, message: &[u8]) -> bool
    ensures is { result ≡ is_send_of message.now row.now }
    ensures sent { IsTrue result ↔ (sent_by row.now.act ≡ Some message.now) }
{
    match row.act.sent() {
        Some(name) => name.bytes() == message,
        None => false,
    }
}

fn sender(rows: &[Row], message: &[u8]) -> Option<usize>
    ensures { result ≡ position (is_send_of message.now) rows.now }
{
    rows.iter().position(|row| sends(row, message))
}

impl Log {
    /// The last row before row `f` that is of its host, and None where there is none.
    pub fn row_before(&self, f: usize) -> Option<usize>
        requires { f < length self.now.rows }
        ensures row { result ≡ previous_row self.now f }
        ensures before { IfSome result (λ e. e < f) }
    {
        let host = host_at(self, f);
        for e in (0..f).rev() {
            if host_at(self, e) == host {
                return Some(e);
            }
        }
        None
    }

    /// The row that sends the message that row `r` receives, and None where `r` is no receive.
    pub fn send_for(&self, r: usize) -> Option<usize>
        requires { r < length self.now.rows }
        ensures row { result ≡ send_of self.now r }
        ensures within { IfSome result (λ s. s < length self.now.rows) }
    {
        match self.rows()[r].act.received() {
            Some(message) => sender(self.rows(), message.bytes()),
            None => None,
        }
    }
}
