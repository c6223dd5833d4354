//! The search for what satisfies a problem, by clause learning (Marques-Silva and Sakallah 1996; Moskewicz, Madigan,
//! Zhao, Zhang and Malik 2001): a model, lines that refute it, or lines that derive, with as many clauses learnt as a
//! budget of conflicts.
#![tactic(auto)]

mod assignment;
mod budget;
mod cites;
mod conflict;
mod decided;
mod decision;
mod derived;
mod descent;
mod difference;
mod found;
mod ground;
mod heads;
mod lines;
mod linked;
mod main_loop;
mod needs;
mod part;
mod ratings;
mod read_off;
mod restarts;
mod scores;
mod settling;
mod sight;
mod start;
mod state;
mod strategy;
mod value;
mod walk;

pub use budget::Budget;
pub use found::Found;
pub use main_loop::search;
pub use value::{Searched, refuted_by_conflict, search_log, search_value};
