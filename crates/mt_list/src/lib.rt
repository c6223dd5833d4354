//! The one list type, which the other crates name by what it holds, and a push onto a list that has room.
#![tactic(auto)]

mod list_of;
mod room;

pub use list_of::ListOf;
pub use room::push_within;
