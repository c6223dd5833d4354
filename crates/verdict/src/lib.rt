//! Which truth values a formula of metric temporal logic (Koymans 1990) can have over all timings that a log
//! admits: reports that say it with a witness or a refutation for each value, and the audit of any report.
#![tactic(auto)]

mod answer;
mod auditing;
mod bounds;
mod deciding;
mod laws;
mod outlined;

pub use answer::{Audit, Part};
pub use auditing::audit;
pub use deciding::decide;
pub use laws::{
    accepted_reports_are_true, audits_are_exact, right_reports_are_accepted,
    right_reports_are_true, spent_conflicts_are_bounded,
};
pub use outlined::audit_outline;
pub use question::QuestionFault as VerdictFault;
