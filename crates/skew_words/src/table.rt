//! The table of commands: the first word of each, its operands in order, and whether it takes the option `--conflicts`.

ghost use Rattle.std.specs.Prelude.{◌≡◌};
ghost use Rattle.skew_words.specs.Table.{is_of_kind, kind_of, name_of, row_of, verb_named};

use crate::limits::{MAX_EVENT, MAX_WIDENING};
use crate::values::truth_value;
use decimal::number;
use demo_log::MAX_SEED;

/// The first word of a command.
#[derive(Clone, Copy)]
pub enum Verb {
    Times,
    Replay,
    Order,
    Check,
    Audit,
    Trim,
    Json,
    Tolerance,
    Span,
    Demo,
}

const VERBS: [Verb; 10] = [
    Verb::Times,
    Verb::Replay,
    Verb::Order,
    Verb::Check,
    Verb::Audit,
    Verb::Trim,
    Verb::Json,
    Verb::Tolerance,
    Verb::Span,
    Verb::Demo,
];

/// An operand of a command.
#[derive(Clone, Copy)]
pub enum Operand {
    Formula,
    Log,
    Times,
    Report,
    Json,
    Value,
    /// The greatest widening.
    Max,
    /// The event from which a distance counts.
    From,
    /// The event up to which it counts.
    To,
    Seed,
}

/// What a word has to be as an operand.
#[derive(Clone, Copy)]
pub enum Kind {
    /// The name of a file: a word that is not empty.
    File,
    /// A truth value.
    Value,
    /// A number below a limit.
    Number { below: u128 },
}

/// A row of the table.
#[derive(Clone, Copy)]
pub struct Row {
    pub word: &'static str,
    pub operands: &'static [Operand],
    pub takes_conflicts: bool,
}

impl Kind {
    // Whether a word is of the kind.
    fn admits(self, word: &str) -> bool
        ensures { result ≡ is_of_kind self word.now }
    {
        match self {
            Kind::File => !word.is_empty(),
            Kind::Value => truth_value(word).is_some(),
            Kind::Number { below } => number(word.as_bytes(), below).is_some(),
        }
    }
}

impl Operand {
    /// Its name, by which `clap` finds its value.
    pub fn name(self) -> &'static str
        ensures { result.now ≡ name_of self }
    {
        match self {
            Operand::Formula => "formula",
            Operand::Log => "log",
            Operand::Times => "times",
            Operand::Report => "report",
            Operand::Json => "json",
            Operand::Value => "value",
            Operand::Max => "max",
            Operand::From => "from",
            Operand::To => "to",
            Operand::Seed => "seed",
        }
    }

    // What a word has to be as this operand.
    fn kind(self) -> Kind
        ensures { result ≡ kind_of self }
    {
        match self {
            Operand::Formula | Operand::Log | Operand::Times | Operand::Report | Operand::Json =>
                Kind::File,
            Operand::Value => Kind::Value,
            Operand::Max => Kind::Number {
                below: MAX_WIDENING as u128 + 1,
            },
            Operand::From | Operand::To => Kind::Number {
                below: MAX_EVENT as u128 + 1,
            },
            Operand::Seed => Kind::Number {
                below: MAX_SEED as u128 + 1,
            },
        }
    }

    /// Whether a word can be the operand.
    pub fn admits(self, word: &str) -> bool
        ensures { result ≡ is_of_kind (kind_of self) word.now }
    {
        self.kind().admits(word)
    }
}

impl Verb {
    /// Its row.
    pub fn row(self) -> Row
        ensures word { result.word.now ≡ (row_of self).word }
        ensures operands { result.operands.now ≡ (row_of self).operands }
        ensures conflicts { result.takes_conflicts ≡ (row_of self).takes_conflicts }
    {
        match self {
            Verb::Times => Row {
                word: "times",
                operands: &[Operand::Log],
                takes_conflicts: false,
            },
            Verb::Replay => Row {
                word: "replay",
                operands: &[Operand::Formula, Operand::Log, Operand::Times],
                takes_conflicts: false,
            },
            Verb::Order => Row {
                word: "order",
                operands: &[Operand::Log],
                takes_conflicts: false,
            },
            Verb::Check => Row {
                word: "check",
                operands: &[Operand::Formula, Operand::Log],
                takes_conflicts: true,
            },
            Verb::Audit => Row {
                word: "audit",
                operands: &[Operand::Formula, Operand::Log, Operand::Report],
                takes_conflicts: true,
            },
            Verb::Trim => Row {
                word: "trim",
                operands: &[Operand::Report],
                takes_conflicts: false,
            },
            Verb::Json => Row {
                word: "json",
                operands: &[Operand::Json],
                takes_conflicts: false,
            },
            Verb::Tolerance => Row {
                word: "tolerance",
                operands: &[Operand::Value, Operand::Max, Operand::Formula, Operand::Log],
                takes_conflicts: true,
            },
            Verb::Span => Row {
                word: "span",
                operands: &[
                    Operand::Value,
                    Operand::From,
                    Operand::To,
                    Operand::Formula,
                    Operand::Log,
                ],
                takes_conflicts: true,
            },
            Verb::Demo => Row {
                word: "demo",
                operands: &[Operand::Seed],
                takes_conflicts: false,
            },
        }
    }

    /// The first word that a word is, if it is one.
    pub fn named(word: &str) -> Option<Verb>
        ensures { result ≡ verb_named word.now }
    {
        for verb in VERBS {
            if verb.row().word == word {
                return Some(verb);
            }
        }
        None
    }
}
