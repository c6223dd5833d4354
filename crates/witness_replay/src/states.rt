//! The state of a proposition at one instant after the other, by the rows that change it and those that
//! pulse it.

ghost use Rattle.std.specs.Prelude.{◌≡◌, ◌<◌, ◌≤◌, ◌+◌, ◌&&◌, ◌||◌, length, None, All, IfSome, nat_lt, int_le, true, false};
ghost use Rattle.std.specs.Option.{option_map_or};
ghost use Rattle.mt_model.specs.State.{change_at, effect_of, is_pulse_at, is_pulse_of};
ghost use Rattle.witness_replay.specs.Effects.{change_by, changed_to, is_pulsing};
ghost use Rattle.witness_replay.specs.LatestChanges.{AreAfter, AreBy, IsLatest};
ghost use Rattle.witness_replay.specs.LatestPulses.{is_pulsed_at};
ghost use Rattle.witness_replay.specs.Timelines.{AreRising, moment_at};

use crate::timeline::Moment;
use mt_model::{Act, Log, Name};

/// A proposition of a host of a log.
#[derive(Clone, Copy)]
pub struct Proposition<'a> {
    pub host: usize,
    pub name: &'a Name,
}

/// What a row does to a proposition.
#[derive(Clone, Copy)]
pub enum Effect {
    /// It sets it, or clears it where this is false.
    Changes(bool),
    /// It makes it true at its own instant.
    Pulses,
}

// What an act does to the proposition.
fn act_effect(act: &Act, name: &Name) -> Option<Effect>
    ensures change { changed_to result ≡ effect_of name.now act.now }
    ensures pulse { is_pulsing result ≡ is_pulse_of name.now act.now }
{
    match act {
        Act::Set(changed) if changed.bytes() == name.bytes() => Some(Effect::Changes(true)),
        Act::Clear(changed) if changed.bytes() == name.bytes() => Some(Effect::Changes(false)),
        Act::Pulse(pulsed) if pulsed.bytes() == name.bytes() => Some(Effect::Pulses),
        Act::Set(_) | Act::Clear(_) | Act::Send(_) | Act::Recv(_) | Act::Note(_) | Act::Pulse(_) =>
            None,
    }
}

// What a row does to a proposition.
fn row_effect(log: &Log, proposition: Proposition, e: usize) -> Option<Effect>
    requires { e < length log.now.rows }
    ensures change { change_by e result ≡ change_at log.now proposition.entry.host proposition.entry.name.now e }
    ensures pulse { is_pulsing result ≡ is_pulse_at log.now proposition.entry.host proposition.entry.name.now e }
{
    let row = &log.rows()[e];
    if row.host.get() as usize == proposition.host {
        act_effect(&row.act, proposition.name)
    } else {
        None
    }
}

/// The first places of a timeline, so many of them; of their rows the last one in the log that changes a
/// proposition, and whether it sets it; and the last of them whose row pulses it.
#[derive(Clone, Copy)]
pub struct Latest {
    pub places: usize,
    pub row: Option<usize>,
    pub sets: bool,
    pub pulse: Option<usize>,
}

impl Latest {
    /// No place.
    pub fn new() -> Latest
        ensures places { result.places ≡ 0 }
        ensures none { result.row ≡ None }
        ensures unset { result.sets ≡ false }
        ensures no_pulse { result.pulse ≡ None }
    {
        Latest {
            places: 0,
            row: None,
            sets: false,
            pulse: None,
        }
    }

    // Whether a row that changes the proposition decides: it stands in the log after the last one that did.
    fn decides(self, row: usize) -> bool
        ensures { result ≡ option_map_or (λ r. nat_lt r row) self.row true }
    {
        self.row.is_none_or(|last| last < row)
    }

    // One more place is taken in.
    fn extended(self, log: &Log, moments: &[Moment], proposition: Proposition) -> Latest
        requires rows { All (λ m. m.row < length log.now.rows) moments.now }
        requires more { self.places < length moments.now }
        requires latest { IsLatest log.now moments.now proposition.host proposition.name.now self }
        ensures latest { IsLatest log.now moments.now proposition.entry.host proposition.entry.name.now result }
        ensures places { result.places ≡ self.places + 1 }
    {
        let row = moments[self.places].row;
        let places = self.places + 1;
        match row_effect(log, proposition, row) {
            Some(Effect::Changes(sets)) => {
                if self.decides(row) {
                    Latest {
                        places,
                        row: Some(row),
                        sets,
                        ..self
                    }
                } else {
                    Latest { places, ..self }
                }
            }
            Some(Effect::Pulses) => Latest {
                places,
                pulse: Some(self.places),
                ..self
            },
            None => Latest { places, ..self },
        }
    }

    // Whether the next place is at most at the instant of a place.
    fn has_more(self, moments: &[Moment], place: usize) -> bool
        requires { place < length moments.now }
        ensures { result ≡ (nat_lt self.places (length moments.now) && int_le (moment_at moments.now self.places).time (moment_at moments.now place).time) }
    {
        self.places < moments.len() && moments[self.places].time <= moments[place].time
    }

    /// All places are taken in that are at most at the instant of a place, as those before are.
    pub fn advanced(
        self,
        log: &Log,
        moments: &[Moment],
        proposition: Proposition,
        place: usize,
    ) -> Latest
        requires rows { All (λ m. m.row < length log.now.rows) moments.now }
        requires rising { AreRising moments.now (length moments.now) }
        requires latest { IsLatest log.now moments.now proposition.host proposition.name.now self }
        requires within { self.places ≤ length moments.now }
        requires place_in { place < length moments.now }
        requires by { AreBy moments.now (moment_at moments.now place).time self.places }
        ensures latest { IsLatest log.now moments.now proposition.entry.host proposition.entry.name.now result }
        ensures within { result.places ≤ length moments.now }
        ensures by { AreBy moments.now (moment_at moments.now place).time result.places }
        ensures after { AreAfter moments.now (moment_at moments.now place).time result.places }
    {
        let mut latest = self;
        while latest.has_more(moments, place) {
            latest = latest.extended(log, moments, proposition);
        }
        latest
    }

    // Whether the last pulse has the instant of a place.
    fn is_pulsed(self, moments: &[Moment], place: usize) -> bool
        requires place_in { place < length moments.now }
        requires pulse_in { IfSome self.pulse (λ p. p < length moments.now) }
        ensures { result ≡ is_pulsed_at moments.now (moment_at moments.now place).time self.pulse }
    {
        match self.pulse {
            Some(pulse) => moments[pulse].time == moments[place].time,
            None => false,
        }
    }

    /// Whether the last pulse has the instant of a place, or else the last change sets the proposition.
    pub fn state(self, moments: &[Moment], place: usize) -> bool
        requires place_in { place < length moments.now }
        requires pulse_in { IfSome self.pulse (λ p. p < length moments.now) }
        ensures { result ≡ (is_pulsed_at moments.now (moment_at moments.now place).time self.pulse || self.sets) }
    {
        self.is_pulsed(moments, place) || self.sets
    }
}
