//! The trail of assigned literals, and unit propagation that keeps a difference graph in step with it.
#![tactic(auto)]

mod attach;
mod best;
mod entry;
mod laws;
mod levels;
mod linked_clauses;
mod links;
mod propagation;
mod stop;
mod stored;
mod trail;
mod unit;
mod visit;
mod watch;
mod watches;

pub use laws::{
    added_clause_keeps_step, new_trail_is_in_step, room_for_all_is_room, set_links_are_linked,
    step_holds_marks,
};
pub use links::Links;
pub use propagation::Reached;
pub use trail::{Trail, trails_are_in_order};
