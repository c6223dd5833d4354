//! What is answered for lines.

/// What lines of a derivation are.
#[derive(Clone, Copy, PartialEq, Eq)]
pub enum Check {
    /// All lines are right, and the clause of the last one is empty.
    Refutes,
    /// All lines are right, and no clause is empty.
    Derives,
    /// The first line, from 1, that isn't right or stands after an empty clause.
    Wrong(u32),
}

/// What the lines of a text are, and how many of the right ones, as far as the first wrong one, are Learn lines.
#[derive(Clone, Copy, PartialEq, Eq)]
pub struct TextCheck {
    pub check: Check,
    pub learn_lines: u32,
}
