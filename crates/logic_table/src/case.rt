//! The case that questions are on.

use mt_model::{Extra, Formula, Log};
use proof_log::{LineFault, Lines, read_lines};
use std::alloc::Global;
use table_case::{Case, Parsed, extra_of, number_of, push_line, push_marked, text_of};

/// The budget of a case that doesn't say it.
const BUDGET: u32 = 200_000;

/// A formula and a log with extra bounds, the value sought, the budget of a search, and the text of a derivation.
#[derive(Drop)]
pub struct LogicCase {
    case: Case,
    extras: Vec<Extra>,
    budget: u32,
    derivation: Vec<u8>,
}

// The log with extra bounds, if it takes them.
fn with_extras(log: Log, extras: &[Extra]) -> Option<Log> {
    let mut log = log;
    for extra in extras {
        if !log.takes_extra(*extra) {
            return None;
        }
        log = log.with_extra(*extra).ok()?;
    }
    Some(log)
}

impl LogicCase {
    /// No formula, an empty log without extra bounds, the value false, and no derivation.
    pub fn new(alloc: Global) -> LogicCase {
        LogicCase {
            case: Case::new(alloc),
            extras: Vec::new(alloc),
            budget: BUDGET,
            derivation: Vec::new(alloc),
        }
    }

    /// Takes in what a line says of the case, if it says something of it.
    pub fn take(&mut self, alloc: Global, mark: u8, text: &[u8], out: &mut Vec<u8>) -> Option<()> {
        match mark {
            b'=' => {
                self.begin(alloc, text)?;
                push_marked(out, mark, text)
            }
            b'|' => self.case.push_log_line(text),
            b'&' => self.extras.push(extra_of(text_of(text)?)?).ok(),
            b'+' => {
                self.case.value = true;
                Some(())
            }
            b'<' => {
                self.budget = number_of(text_of(text)?)?;
                Some(())
            }
            b'>' => push_line(&mut self.derivation, text),
            b'/' => self.derivation.extend_from_slice(text).ok(),
            _ => Some(()),
        }
    }

    // Begins the case of a formula.
    fn begin(&mut self, alloc: Global, formula: &[u8]) -> Option<()> {
        self.extras.clear();
        self.budget = BUDGET;
        self.derivation.clear();
        self.case.begin(alloc, formula)
    }

    /// The text of the derivation.
    pub fn derivation(&self) -> &[u8] {
        &self.derivation
    }

    /// Empties the derivation.
    pub fn clear_derivation(&mut self) {
        self.derivation.clear();
    }

    /// The value that is sought of the formula.
    pub fn value(&self) -> bool {
        self.case.value
    }

    /// The budget of a search.
    pub fn budget(&self) -> u32 {
        self.budget
    }

    /// The formula, if its text is one.
    pub fn formula(&self, alloc: Global) -> Option<Formula> {
        self.case.formula(alloc)
    }

    /// The log with the extra bounds, if its text is one and takes them.
    pub fn log(&self, alloc: Global) -> Option<Log> {
        with_extras(self.case.log(alloc)?, &self.extras)
    }

    /// The log and the nodes of the formula, if their texts are ones.
    pub fn parsed(&self, alloc: Global) -> Option<Parsed> {
        let Parsed { log, arena, root } = self.case.parsed(alloc)?;
        let log = with_extras(log, &self.extras)?;
        Some(Parsed { log, arena, root })
    }

    /// The lines of the derivation, or their fault.
    pub fn lines(&self, alloc: Global) -> Option<Result<Lines, LineFault>> {
        if self.derivation.len() < 1 << 31 {
            Some(read_lines(alloc, &self.derivation))
        } else {
            None
        }
    }
}
