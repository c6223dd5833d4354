//! The numbers that words write, and None for a word that writes none within its limits.

ghost use Rattle.std.specs.Prelude.{◌≡◌, ◌≤◌, IfSome};
ghost use Rattle.skew_words.specs.declared.limits.TheConstants.{MAX_CONFLICTS, MAX_WIDENING};
ghost use Rattle.skew_words.specs.Words.{conflicts_of, event_of, events_of, seed_of, widening_of};

use crate::limits::{MAX_CONFLICTS, MAX_EVENT, MAX_WIDENING};
use decimal::number;
use demo_log::MAX_SEED;

/// The number of conflicts that a word writes.
pub fn conflicts(word: &str) -> Option<u32>
    ensures number { result ≡ conflicts_of word.now }
    ensures range { IfSome result (λ n. (1 ≤ n) × (n ≤ MAX_CONFLICTS)) }
{
    let n = number(word.as_bytes(), MAX_CONFLICTS as u128 + 1)?;
    if n > 0 { Some(n as u32) } else { None }
}

/// The widening that a word writes.
pub fn widening(word: &str) -> Option<u64>
    ensures widening { result ≡ widening_of word.now }
    ensures range { IfSome result (λ n. n ≤ MAX_WIDENING) }
{
    let n = number(word.as_bytes(), MAX_WIDENING as u128 + 1)?;
    Some(n as u64)
}

/// The event whose number a word writes.
pub fn event(word: &str) -> Option<u32>
    ensures event { result ≡ event_of word.now }
{
    let n = number(word.as_bytes(), MAX_EVENT as u128 + 1)?;
    Some(n as u32)
}

/// The two events whose numbers words write, where they differ.
pub fn two_events(from: &str, to: &str) -> Option<(u32, u32)>
    ensures events { result ≡ events_of from.now to.now }
    ensures differ { IfSome result (λ events. events.0 ≡ events.1 → ⊥) }
{
    let from = event(from)?;
    let to = event(to)?;
    if from == to { None } else { Some((from, to)) }
}

/// The seed that a word writes.
pub fn seed(word: &str) -> Option<u64>
    ensures seed { result ≡ seed_of word.now }
{
    let n = number(word.as_bytes(), MAX_SEED as u128 + 1)?;
    Some(n as u64)
}
