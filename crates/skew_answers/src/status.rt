//! The statuses with which runs end.

ghost use Rattle.std.specs.Prelude.{◌≡◌};
ghost use Rattle.skew_answers.specs.Statuses.{code_of};

/// How a run ended.
#[derive(Clone, Copy, PartialEq, Eq)]
pub enum Status {
    /// The answer is yes, or the work is done.
    Zero,
    /// The formula is false, or can't have the value that was asked for.
    One,
    /// The formula can be true and can be false.
    Two,
    /// No timing is admissible, or an event happens before itself.
    Inconsistent,
    /// A search was cut off: a truth value, a widening or a distance is left unknown.
    Unknown,
    /// A report was refused.
    Rejected,
    /// The times break a bound of the log.
    NotAdmissible,
    /// The words are no command.
    Words,
    /// The formula has a fault.
    FormulaRefused,
    /// The log has a fault.
    LogRefused,
    /// A file, or the problem, is above its limit.
    TooLarge,
    /// The times file has a fault.
    TimesRefused,
    /// An event that is asked for is not in the log.
    EventRefused,
    /// Memory ran out; nothing was written.
    NoMemory,
    /// A file could not be read; nothing was written.
    ReadFailed,
    /// Writing failed; what was written is the beginning of an answer.
    WriteFailed,
}

impl Status {
    /// The exit status of the program.
    pub fn code(&self) -> u8
        ensures code { result ≡ code_of self.now }
    {
        match self {
            Status::Zero => 0,
            Status::One => 1,
            Status::Two => 2,
            Status::Inconsistent => 3,
            Status::Unknown => 4,
            Status::Rejected => 5,
            Status::NotAdmissible => 6,
            Status::Words => 64,
            Status::FormulaRefused => 65,
            Status::LogRefused => 66,
            Status::TooLarge => 67,
            Status::TimesRefused => 68,
            Status::EventRefused => 69,
            Status::NoMemory => 70,
            Status::ReadFailed => 74,
            Status::WriteFailed => 75,
        }
    }
}
