//! Which atoms name events and nodes that there are.

ghost use Rattle.std.specs.Prelude.{◌≡◌, ◌↔◌, All, IsTrue};
ghost use Rattle.proof_log.specs.Derivations.{is_event as is_event_of, is_in_range as is_in_range_of, is_node as is_node_of};

use axiom_rules::{Atom, Literal, Rules};

fn is_event(rules: &Rules, e: u32) -> bool
    ensures { result ≡ is_event_of rules.now e }
{
    e < rules.events()
}

fn is_node(rules: &Rules, k: u32) -> bool
    ensures { result ≡ is_node_of rules.now k }
{
    (k as usize) < rules.nodes()
}

// Whether an atom names events and nodes that there are, and until or since nodes where it is about these.
fn is_in_range(rules: &Rules, atom: Atom) -> bool
    ensures { result ≡ is_in_range_of rules.now atom }
{
    match atom {
        Atom::Order { e, f, .. } => is_event(rules, e) && is_event(rules, f),
        Atom::Node { k, e } => is_node(rules, k) && is_event(rules, e),
        Atom::First { e } => is_event(rules, e),
        Atom::Same { e, x } => is_event(rules, e) && is_event(rules, x),
        Atom::Wit { k, i, j } | Atom::Span { k, i, j } => {
            rules.is_reach(k) && is_event(rules, i) && is_event(rules, j)
        }
        Atom::Gap { k, i, m } => rules.is_reach(k) && is_event(rules, i) && is_event(rules, m),
    }
}

/// Whether literals name events and nodes that there are, and until or since nodes where they are about these.
pub fn are_in_range(rules: &Rules, lits: &[Literal]) -> bool
    ensures { IsTrue result ↔ All (λ l. IsTrue (is_in_range_of rules.now l.atom)) lits.now }
{
    lits.iter().all(|l| is_in_range(rules, l.atom))
}
