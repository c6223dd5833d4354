//! How much each variable had to do with conflicts, the later ones counting for more (Moskewicz, Madigan, Zhao,
//! Zhang and Malik 2001; Eén and Sörensson 2003).

use clause_db::Var;
use std::alloc::{AllocError, Global};

// The greatest score.
const MOST: u64 = 1 << 62;

/// A score for each variable, and by how much a conflict raises it.
#[derive(Drop)]
pub struct Scores {
    scores: Vec<Score>,
    // Those whose score is above 0.
    raised: Vec<Var>,
    increment: u64,
    // The number of the next conflict, from 1.
    conflict: u32,
}

// A score, and the number of the conflict that raised it last.
#[derive(Clone, Copy)]
struct Score {
    value: u64,
    conflict: u32,
}

impl Scores {
    /// So many variables, each with the score 0.
    pub fn new(alloc: Global, vars: u32) -> Result<Scores, AllocError> {
        let none = Score {
            value: 0,
            conflict: 0,
        };
        Ok(Scores {
            scores: vec![in alloc; none; vars as usize]?,
            raised: Vec::new(alloc),
            increment: 1,
            conflict: 1,
        })
    }

    /// The score of a variable.
    pub fn score(&self, var: Var) -> u64 {
        match self.scores.get(var.get() as usize) {
            None => 0,
            Some(score) => score.value,
        }
    }

    /// Raises the score of a variable of the next conflict, if that conflict didn't raise it already.
    pub fn raise(&mut self, var: Var) -> Result<(), AllocError> {
        if self.score(var).saturating_add(self.increment) > MOST {
            self.halve();
        }
        if let Some(score) = self.scores.get_mut(var.get() as usize)
            && score.conflict < self.conflict
        {
            if score.value == 0 {
                self.raised.push(var)?;
            }
            score.value = score.value.saturating_add(self.increment);
            score.conflict = self.conflict;
        }
        Ok(())
    }

    /// From here on comes another conflict, which counts for one eighth more.
    pub fn grow(&mut self) {
        self.conflict = self.conflict.saturating_add(1);
        let eighth = self.increment.saturating_add(7) / 8;
        self.increment = self.increment.saturating_add(eighth);
        if self.increment > MOST {
            self.halve();
        }
    }

    // Halves all scores, and by how much a conflict raises them.
    fn halve(&mut self) {
        for var in &self.raised {
            if let Some(score) = self.scores.get_mut(var.get() as usize) {
                score.value = (score.value / 2).max(1);
            }
        }
        self.increment = (self.increment / 2).max(1);
    }
}
