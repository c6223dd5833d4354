//! Answers as text.

ghost use Rattle.std.specs.Prelude.{◌≡◌, ◌++◌, IfOk, codes, length, string_bytes};
ghost use Rattle.std.specs.Fmt.{decimal};
ghost use Rattle.mt_model.specs.Bounds.{step_of as step_of_bound};
ghost use Rattle.mt_model.specs.Texts.{step_text};
ghost use Rattle.happened_before.specs.Order.{event_count};
ghost use Rattle.skew_answers.specs.Texts.{clock_line, clocks_text, cycle_text, inconsistent_text, line, times_text};

use happened_before::Order;
use mt_model::{Bound, EventId, Log, Step};
use skew_bounds::step_of;
use std::alloc::{AllocError, Global};

/// A number on each line.
pub fn written_times(alloc: Global, times: &[i128]) -> Result<String, AllocError>
    ensures text { IfOk result (λ text. string_bytes text ≡ times_text times.now) }
{
    let mut text = String::new(alloc);
    for time in times {
        let number = time.to_string(alloc)?;
        text.push_str(number.as_str())?;
        text.push('\n')?;
    }
    Ok(text)
}

// The line before a list: a word with a space behind it, and how many items there are.
fn heading(alloc: Global, word: &str, count: usize) -> Result<String, AllocError>
    ensures { IfOk result (λ text. string_bytes text ≡ line (word.now ++ decimal count)) }
{
    let mut text = String::from_str(alloc, word)?;
    let number = count.to_string(alloc)?;
    text.push_str(number.as_str())?;
    text.push('\n')?;
    Ok(text)
}

/// How many steps there are, and then each on its line.
pub fn written_steps(alloc: Global, steps: &[Step]) -> Result<String, AllocError>
    ensures text { IfOk result (λ text. string_bytes text ≡ inconsistent_text steps.now) }
{
    let mut text = heading(alloc, "inconsistent ", steps.len())?;
    for step in steps {
        let words = step.to_string(alloc)?;
        text.push_str(words.as_str())?;
        text.push('\n')?;
    }
    Ok(text)
}

/// The line of a bound that is broken.
pub fn written_bound(alloc: Global, bound: Bound) -> Result<String, AllocError>
    ensures text { IfOk result (λ text. string_bytes text ≡ line (codes "not admissible " ++ step_text (step_of_bound bound))) }
{
    let step = step_of(bound).to_string(alloc)?;
    let mut text = String::from_str(alloc, "not admissible ")?;
    text.push_str(step.as_str())?;
    text.push('\n')?;
    Ok(text)
}

// The line of an event and its clock.
fn written_clock(alloc: Global, event: usize, clock: &[u32]) -> Result<String, AllocError>
    ensures { IfOk result (λ text. string_bytes text ≡ clock_line event clock.now) }
{
    let mut text = event.to_string(alloc)?;
    text.push(':')?;
    for number in clock {
        let digits = number.to_string(alloc)?;
        text.push(' ')?;
        text.push_str(digits.as_str())?;
    }
    text.push('\n')?;
    Ok(text)
}

/// The clock of each event of a log, in the order of its rows.
pub fn written_clocks(alloc: Global, log: &Log, order: &Order) -> Result<String, AllocError>
    requires each { event_count order.now ≡ length log.now.rows }
    ensures text { IfOk result (λ text. string_bytes text ≡ clocks_text order.now.clocks) }
{
    let mut text = String::new(alloc);
    for event in 0..log.rows().len() {
        let clock = order.clock(EventId::new(event as u32));
        let line = written_clock(alloc, event, clock)?;
        text.push_str(line.as_str())?;
    }
    Ok(text)
}

/// How many events there are, and then each on its line.
pub fn written_cycle(alloc: Global, events: &[EventId]) -> Result<String, AllocError>
    ensures text { IfOk result (λ text. string_bytes text ≡ cycle_text events.now) }
{
    let mut text = heading(alloc, "cycle ", events.len())?;
    for event in events {
        let number = event.get().to_string(alloc)?;
        text.push_str(number.as_str())?;
        text.push('\n')?;
    }
    Ok(text)
}
