//! Steps and bounds by their words.

use crate::telling::push_part;
use mt_model::Step;
use std::alloc::Global;
use table_case::{number_of, split_word};

// `t_e - t_f <= c`.
fn order_of(text: &str) -> Option<Step> {
    let (e, rest) = split_word(text);
    let (f, most) = split_word(rest);
    Some(Step::Order {
        e: number_of(e)?,
        f: number_of(f)?,
        c: number_of(most)?,
    })
}

/// A step by its word and its numbers.
pub fn step_of(text: &str) -> Option<Step> {
    let (word, rest) = split_word(text);
    if word == "order" {
        return order_of(rest);
    }
    let number = number_of(rest)?;
    match word {
        "low" => Some(Step::Low(number)),
        "high" => Some(Step::High(number)),
        "rise" => Some(Step::Rise(number)),
        "message" => Some(Step::Message(number)),
        "late" => Some(Step::Late(number)),
        "under" => Some(Step::Under(number)),
        "over" => Some(Step::Over(number)),
        "extra" => Some(Step::Extra(number)),
        _ => None,
    }
}

fn push_steps(line: &mut String, steps: &[Step]) -> Option<()> {
    for step in steps {
        push_part(line, *step)?;
    }
    Some(())
}

/// A closed walk, from its first upper bound on, wherever it begins.
pub fn walk_text(alloc: Global, steps: &[Step]) -> Option<String> {
    let first = steps
        .iter()
        .position(|step| matches!(step, Step::High(_)))
        .unwrap_or(0);
    let mut line = String::new(alloc);
    push_steps(&mut line, steps.get(first..)?)?;
    push_steps(&mut line, steps.get(..first)?)?;
    Some(line)
}
