//! The steps of walks: each says how long after one moment another comes at most.

use mt_list::ListOf;
use std::fmt;

/// A step of a walk from a node x to a node y, which says `x - y <= c`. Rows and extras count from 0.
#[derive(Clone, Copy, PartialEq, Eq)]
pub enum Step {
    /// The true time of a row is at least its local time less its skew.
    Low(u32),
    /// The true time of a row is at most its local time plus its skew.
    High(u32),
    /// A row comes at least its gap after the row before it on its host.
    Rise(u32),
    /// A receive comes at least the least delay of its host after its send.
    Message(u32),
    /// A receive comes at most the greatest delay of its host after its send.
    Late(u32),
    /// What a row's clock shows is at least the row's local time less the error of the reading.
    Under(u32),
    /// What a row's clock shows is at most the row's local time plus the error of the reading.
    Over(u32),
    /// An extra bound of the log.
    Extra(u32),
    /// `t_e - t_f <= c`, which is no bound of the log.
    Order { e: u32, f: u32, c: i128 },
}

/// Steps one after another.
pub type Steps = ListOf<Step>;

impl fmt::Display for Step {
    ghost use Rattle.std.specs.Prelude.{Some};
    ghost use Rattle.mt_model.specs.Texts.{step_text};

    ghost output = { λ s. Some (step_text s) };

    fn fmt<W: fmt::Write>(&self, f: &mut fmt::Formatter<W>) -> fmt::Result {
        match self {
            Step::Low(e) => write!(f, "low {e}"),
            Step::High(e) => write!(f, "high {e}"),
            Step::Rise(e) => write!(f, "rise {e}"),
            Step::Message(e) => write!(f, "message {e}"),
            Step::Late(e) => write!(f, "late {e}"),
            Step::Under(e) => write!(f, "under {e}"),
            Step::Over(e) => write!(f, "over {e}"),
            Step::Extra(k) => write!(f, "extra {k}"),
            Step::Order { e, f: other, c } => write!(f, "order {e} {other} {c}"),
        }
    }
}
