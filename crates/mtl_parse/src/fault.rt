//! What can be wrong with a formula's text, by number and byte.

ghost use Rattle.std.specs.Prelude.{◌≡◌};
ghost use Rattle.mtl_parse.specs.Faults.{byte_of, number_of};

use std::alloc::AllocError;
use thiserror::Error;

/// What is wrong with a formula's text, with the byte of it, from 0; or want of memory.
#[derive(Clone, Copy, Debug, Error)]
pub enum FormulaFault {
    /// A byte begins no token, or a word is longer than 32 bytes.
    #[error("no token at byte {byte}")]
    Token { byte: u32 },
    /// No formula goes on with the token here, or the text ends too early: then the byte is its length.
    #[error("another token is expected at byte {byte}")]
    Expected { byte: u32 },
    /// A number has a leading zero or is above 10^18.
    #[error("a number with a leading zero or above 10^18 at byte {byte}")]
    Number { byte: u32 },
    /// The interval whose `[` stands here has its first bound above its second.
    #[error("an empty interval at byte {byte}")]
    EmptyInterval { byte: u32 },
    /// The formula is higher than 200. The byte is 0.
    #[error("a formula higher than 200")]
    TooDeep { byte: u32 },
    /// The formula ends before the token here.
    #[error("the formula ends before byte {byte}")]
    Trailing { byte: u32 },
    /// The text has no token. The byte is 0.
    #[error("no formula")]
    Empty { byte: u32 },
    /// There is no memory.
    #[error("out of memory")]
    Memory,
}

impl FormulaFault {
    /// Its number, from 1 to 7, and 0 for want of memory.
    pub fn number(&self) -> u8
        ensures number { result ≡ number_of self.now }
    {
        match self {
            FormulaFault::Token { .. } => 1,
            FormulaFault::Expected { .. } => 2,
            FormulaFault::Number { .. } => 3,
            FormulaFault::EmptyInterval { .. } => 4,
            FormulaFault::TooDeep { .. } => 5,
            FormulaFault::Trailing { .. } => 6,
            FormulaFault::Empty { .. } => 7,
            FormulaFault::Memory => 0,
        }
    }

    /// Its byte, from 0, and None for want of memory.
    pub fn byte(&self) -> Option<u32>
        ensures byte { result ≡ byte_of self.now }
    {
        match self {
            FormulaFault::Token { byte }
            | FormulaFault::Expected { byte }
            | FormulaFault::Number { byte }
            | FormulaFault::EmptyInterval { byte }
            | FormulaFault::TooDeep { byte }
            | FormulaFault::Trailing { byte }
            | FormulaFault::Empty { byte } => Some(*byte),
            FormulaFault::Memory => None,
        }
    }
}

impl From<AllocError> for FormulaFault {
    ghost use Rattle.std.specs.Prelude.{◌≡◌};
    ghost use Rattle.mtl_parse.specs.declared.fault.FormulaFault.TheVariants.{Memory};

    ghost from_gives = { λ _ f. f ≡ Memory };

    fn from(_: AllocError) -> Self {
        FormulaFault::Memory
    }
}
