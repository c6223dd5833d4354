//! Reports: what is said of both truth values of a formula, and its text both ways.
#![tactic(auto)]

mod bounds;
mod fault;
mod front;
mod items;
mod laws;
mod outline;
mod outline_printer;
mod outlining;
mod part;
mod printer;
mod reader;
mod report;
mod spelling;
mod stop;

pub use bounds::read_bound;
pub use fault::ReportFault;
pub use laws::{bytes_are_unambiguous, cut_texts_are_faulty, texts_read_back, texts_tell_apart};
pub use outline::{Outline, SectionOutline};
pub use outline_printer::print_outline;
pub use outlining::read_outline;
pub use part::Kind;
pub use printer::{print_report, push_derivation, push_ended, push_section};
pub use reader::{read_report, times_of};
pub use report::{Report, Section};
pub use spelling::has_spelling;
