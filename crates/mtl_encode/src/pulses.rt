//! The events that are gone through as second ones: where the rules are about pairs of which one is a pulse and the first
//! event is none, the pulses alone.

ghost use Rattle.std.specs.Prelude.{◌≡◌, ◌&&◌, length, not, Bool, IfOk};
ghost use Rattle.std.specs.List.{flat_map, range_with_len};
ghost use Rattle.axiom_rules.specs.Rules.{is_pulse_row};
ghost use Rattle.axiom_rules.specs.declared.rule.Rule.{Rule};
ghost use Rattle.mtl_encode.specs.Instances.{is_of_pulses as is_number_of_pulses, pulse_rows as pulse_rows_of, with_one, with_two};
ghost use Rattle.mtl_encode.specs.Seconds.{AreCounts, AreEvents};

use axiom_rules::{Rules, Subject, subject_of};
use mt_model::log_is_valid;
use std::alloc::{AllocError, Global};

/// The events of a log, and those of them that are pulses, in its order.
#[derive(Drop)]
pub struct Events {
    pub all: Vec<u32>,
    pub pulses: Vec<u32>,
}

// The events of a log in its order.
fn all_rows(alloc: Global, rules: &Rules) -> Result<Vec<u32>, AllocError>
    ensures { IfOk result (λ rows. rows.items ≡ range_with_len 0 (length rules.now.log.rows)) }
{
    let mut rows = Vec::new(alloc);
    for e in 0..rules.events() {
        rows.push(e)?;
    }
    Ok(rows)
}

// Those that are pulses.
fn pulse_rows(alloc: Global, rules: &Rules) -> Result<Vec<u32>, AllocError>
    ensures { IfOk result (λ pulses. pulses.items ≡ pulse_rows_of rules.now) }
{
    let mut pulses = Vec::new(alloc);
    for e in 0..rules.events() {
        if rules.is_pulse(e) {
            pulses.push(e)?;
        }
    }
    Ok(pulses)
}

// Whether rules of the number are about pairs of events of which one is a pulse.
fn is_of_pulses(number: u8) -> bool
    ensures { result ≡ is_number_of_pulses number }
{
    matches!(subject_of(number), Some(Subject::Instant))
}

// Whether they are, and this event is none.
fn wants_pulse(rules: &Rules, number: u8, e: u32) -> bool
    ensures { result ≡ (is_number_of_pulses number && not (is_pulse_row rules.now.log e)) }
{
    is_of_pulses(number) && !rules.is_pulse(e)
}

impl Events {
    /// The events of a log.
    pub fn new(alloc: Global, rules: &Rules) -> Result<Events, AllocError>
        ensures { IfOk result (AreEvents rules.now) }
    {
        log_is_valid(rules.log());
        Ok(Events {
            all: all_rows(alloc, rules)?,
            pulses: pulse_rows(alloc, rules)?,
        })
    }

    /// The second arguments that are gone through where the first one is this.
    pub fn seconds(&self, rules: &Rules, number: u8, counts: [u32; 4], a: u32) -> &[u32]
        requires events { AreEvents rules.now self.now }
        requires counts { AreCounts rules.now number counts }
        ensures enough { (out : Rule → Bool) → flat_map (with_two rules.now out number counts a) result.now ≡ with_one rules.now out number counts a }
    {
        if wants_pulse(rules, number, a) {
            &self.pulses
        } else {
            &self.all[..counts[1] as usize]
        }
    }
}
