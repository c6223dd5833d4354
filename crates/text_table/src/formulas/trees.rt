//! Trees of formulas from words, of which an operator stands after its operands.

use crate::telling::name_of;
use mt_model::{Interval, Tree};
use std::alloc::Global;
use table_case::number_of;

// A constant, or a proposition with a dot after its host.
fn leaf_of(alloc: Global, word: &str) -> Option<Tree> {
    match word {
        "true" => Some(Tree::True),
        "false" => Some(Tree::False),
        _ => {
            let (host, name) = word.split_once('.')?;
            Some(Tree::Prop {
                host: name_of(alloc, host.as_bytes())?,
                name: name_of(alloc, name.as_bytes())?,
            })
        }
    }
}

// The bounds before `]`, where `inf` is none.
fn interval_of(text: &str) -> Option<Interval> {
    let (bounds, _) = text.split_once(']')?;
    let (low, high) = bounds.split_once(',')?;
    let high = match high {
        "inf" => None,
        number => Some(number_of(number)?),
    };
    Some(Interval {
        low: number_of(low)?,
        high,
    })
}

// Takes the last tree.
fn last_of(alloc: Global, trees: &mut Vec<Tree>) -> Option<Box<Tree>> {
    Box::new(alloc, trees.pop()?).ok()
}

// What a letter with its interval makes of the last trees.
fn timed(alloc: Global, word: &str, trees: &mut Vec<Tree>) -> Option<Tree> {
    let (letter, bounds) = word.split_once('[')?;
    let interval = interval_of(bounds)?;
    let last = last_of(alloc, trees)?;
    match letter {
        "F" => Some(Tree::Eventually(interval, last)),
        "G" => Some(Tree::Always(interval, last)),
        "O" => Some(Tree::Once(interval, last)),
        "H" => Some(Tree::Historically(interval, last)),
        "U" => Some(Tree::Until(interval, last_of(alloc, trees)?, last)),
        "S" => Some(Tree::Since(interval, last_of(alloc, trees)?, last)),
        _ => None,
    }
}

// What a sign makes of the last two trees.
fn joined(alloc: Global, sign: &str, trees: &mut Vec<Tree>) -> Option<Tree> {
    let right = last_of(alloc, trees)?;
    let left = last_of(alloc, trees)?;
    match sign {
        "&" => Some(Tree::And(left, right)),
        "|" => Some(Tree::Or(left, right)),
        _ => Some(Tree::Implies(left, right)),
    }
}

// The tree that a word is, or makes of the last trees.
fn tree_at(alloc: Global, word: &str, trees: &mut Vec<Tree>) -> Option<Tree> {
    match word {
        "!" => Some(Tree::Not(last_of(alloc, trees)?)),
        "&" | "|" | "->" => joined(alloc, word, trees),
        _ if word.contains('[') => timed(alloc, word, trees),
        _ => leaf_of(alloc, word),
    }
}

/// The tree that words with a space between two are.
pub fn tree_of(alloc: Global, words: &str) -> Option<Tree> {
    let mut trees = Vec::new(alloc);
    for word in words.split(' ') {
        let tree = tree_at(alloc, word, &mut trees)?;
        trees.push(tree).ok()?;
    }
    let tree = trees.pop()?;
    if trees.is_empty() { Some(tree) } else { None }
}
