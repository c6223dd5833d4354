//! Derivations without needless lines, as lists of lines.

ghost use Rattle.std.specs.Prelude.{◌≡◌, ◌↔◌, ◌-◌, ◌<◌, ◌≤◌, ◌^◌, ℕ, [], All, Err, IfOk, length};
ghost use Rattle.proof_log.specs.Spelled.{IsSpelled};
ghost use Rattle.proof_trim.specs.Needed.{IsFirstForward};
ghost use Rattle.proof_trim.specs.Trimmed.{EachIsNamed, IsTrimOf, KeepsRefuting};

use crate::copy::marked_lines;
use crate::fault::TrimFault;
use crate::hints::first_forward;
use crate::needed::needed;
use proof_log::{Line, Lines};
use std::alloc::Global;

/// The lines that the last one needs, in their order, with the hints renumbered.
pub fn trim(alloc: Global, lines: &[Line]) -> Result<Lines, TrimFault>
    requires { length lines.now < 2 ^ 32 - 1 }
    ensures trimmed { IfOk result (IsTrimOf lines.now) }
    ensures each_named { IfOk result EachIsNamed }
    ensures refutes { IfOk result (KeepsRefuting lines.now) }
    ensures spelled { IfOk result (λ t. All IsSpelled lines.now → All IsSpelled t) }
    ensures shorter { IfOk result (λ t. length t ≤ length lines.now) }
    ensures empty { (result ≡ Err TrimFault.Empty) ↔ (lines.now ≡ []) }
    ensures hint { (n : ℕ) → (result ≡ Err (TrimFault.Hint n)) ↔ IsFirstForward lines.now n }
{
    if lines.is_empty() {
        return Err(TrimFault::Empty);
    }
    if let Some(line) = first_forward(lines) {
        return Err(TrimFault::Hint { line });
    }
    let marks = needed(alloc, lines)?;
    Ok(marked_lines(alloc, lines, &marks)?)
}
