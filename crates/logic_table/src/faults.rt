//! The section on texts of faults.

use axiom_rules::RuleFault;
use std::alloc::Global;
use table_case::{push_marked, push_shown, text_of};

fn fault_of(word: &str) -> Option<RuleFault> {
    match word {
        "NoRule" => Some(RuleFault::NoRule),
        "Range" => Some(RuleFault::Range),
        "Kind" => Some(RuleFault::Kind),
        "Trivial" => Some(RuleFault::Trivial),
        "Memory" => Some(RuleFault::Memory),
        _ => None,
    }
}

/// Takes in a line of the section, and adds the text of the fault that it names.
pub fn take(alloc: Global, mark: u8, text: &[u8], out: &mut Vec<u8>) -> Option<()> {
    if mark != b'?' {
        return Some(());
    }
    push_marked(out, mark, text)?;
    push_shown(alloc, out, fault_of(text_of(text)?)?)
}
