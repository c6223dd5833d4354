//! Lines that are judged one after another, each by the clauses of those before it.

ghost use Rattle.std.specs.Prelude.{◌≡◌, ◌↔◌, ◌+◌, ◌<◌, ◌≤◌, ◌^◌, [], ◌∷◌, ◌++◌, List, length, IfOk, IfSome, IsTrue, MatchOption};
ghost use Rattle.axiom_rules.specs.declared.literal.Literal.{Literal};
ghost use Rattle.skew_bounds.specs.RowEdges.{IsEdgeTableOf};
ghost use Rattle.proof_log.specs.declared.line.Line.{Line};
ghost use Rattle.proof_log.specs.Derivations.{IsEmptyAt, clause_of_line};
ghost use Rattle.proof_log.specs.Freshness.{learn_lines};
ghost use Rattle.proof_log.specs.LinesOf.{IsTextOf};
ghost use Rattle.proof_log.specs.Parts.{AreWordsOf, IsHeadWords, OfLine};
ghost use Rattle.proof_check.specs.Answering.{IsAnswer, IsSpelledFront, OfSought, right_lines, with_unspelled as with_unspelled_of};
ghost use Rattle.proof_check.specs.Judging.{IsNext};
ghost use Rattle.proof_check.specs.Keeping.{closed_only, lines_with, with_closed};

use crate::check::{Check, TextCheck};
use crate::clauses::ends_empty;
use crate::conflict::takes_cycle;
use crate::judge::{Aids, takes_learn};
use crate::kept::Clauses;
use axiom_rules::Rules;
use proof_log::{Line, LineWords, has_spelling, next_words, print_lines};
use skew_bounds::EdgeTable;
use std::alloc::{AllocError, Global};

/// The least length of a text that isn't read.
const TOO_LONG: usize = 1 << 31;

// Whether a line of these words is good as the one after those whose clauses are closed. If so, its clause is closed too.
fn takes(
    alloc: Global,
    rules: &Rules,
    table: &EdgeTable,
    kept: &mut Clauses,
    aids: &mut Aids,
    words: LineWords,
) -> Result<bool, AllocError>
    requires table { IsEdgeTableOf rules.now.log table.now }
    requires open { kept.old.pending ≡ [] }
    ensures good { IfOk result (λ b. OfLine words.entry (λ line. IsTrue b ↔ IsNext rules.now kept.old.closed line)) }
    ensures grown { IfOk result (λ b. IsTrue b → (clause : List Literal) × (kept.new ≡ closed_only (kept.old.closed ++ clause ∷ []))) }
    ensures kept { IfOk result (λ b. OfLine words.entry (λ line. IsTrue b → kept.new ≡ with_closed kept.old.closed (clause_of_line line))) }
{
    if ends_empty(kept) {
        return Ok(false);
    }
    aids.guesses.begin(kept);
    match words {
        LineWords::Cycle(words) => takes_cycle(alloc, rules, table, kept, words),
        LineWords::Learn(words) => takes_learn(alloc, rules, kept, aids, words),
    }
}

// What good lines with these clauses are.
fn check_of(kept: &Clauses) -> Check
    ensures refutes { IsEmptyAt (lines_with kept.now.closed) (length kept.now.closed) → result ≡ Check.Refutes }
    ensures derives { (IsEmptyAt (lines_with kept.now.closed) (length kept.now.closed) → ⊥) → result ≡ Check.Derives }
{
    if ends_empty(kept) {
        Check::Refutes
    } else {
        Check::Derives
    }
}

// The words of the first of the lines whose text this is, and the text of the others, which is shorter.
fn first_words(text: &[u8]) -> Option<(LineWords, &[u8])>
    ensures shorter { IfSome result (λ r. length r.1.now < length text.now) }
    ensures head { (lines : List Line) → IsTextOf text.now lines → MatchOption result (lines ≡ []) (λ r. IsHeadWords lines r.0 r.1.now) }
{
    match next_words(text) {
        Some((words, rest)) if rest.len() < text.len() => Some((words, rest)),
        _ => None,
    }
}

// The number of Learn lines with a line more.
fn learn_lines_with(count: u32, words: LineWords) -> u32
    requires { count < 2 ^ 31 }
    ensures learn { (line : Line) → AreWordsOf words.entry line → result ≡ count + learn_lines (line ∷ []) }
    ensures few { result ≤ count + 1 }
{
    match words {
        LineWords::Cycle(_) => count,
        LineWords::Learn(_) => count + 1,
    }
}

/// What the lines of a text are, and how many of the right ones are Learn lines.
pub fn check_lines_of(alloc: Global, rules: &Rules, text: &[u8]) -> Result<TextCheck, AllocError>
    requires { length text.now < 2 ^ 31 }
    ensures answer { IfOk result (λ t. (lines : List Line) → IsTextOf text.now lines → OfSought rules.now (λ log f v. IsAnswer log f v lines t.check)) }
    ensures learn { IfOk result (λ t. (lines : List Line) → IsTextOf text.now lines → t.learn_lines ≡ learn_lines (right_lines t.check lines)) }
{
    let table = EdgeTable::of(alloc, rules.log())?;
    let mut kept = Clauses::new(alloc);
    let mut aids = Aids::new(alloc, rules);
    let mut learn_lines = 0;
    let mut rest = text;
    while let Some((words, after)) = first_words(rest) {
        let number = kept.len() as u32 + 1;
        if !takes(alloc, rules, &table, &mut kept, &mut aids, words)? {
            let check = Check::Wrong(number);
            return Ok(TextCheck { check, learn_lines });
        }
        learn_lines = learn_lines_with(learn_lines, words);
        rest = after;
    }
    let check = check_of(&kept);
    Ok(TextCheck { check, learn_lines })
}

// How many lines come before the first that has no spelling.
fn count_spelled(alloc: Global, lines: &[Line]) -> Result<usize, AllocError>
    ensures { IfOk result (IsSpelledFront lines.now) }
{
    for (i, line) in lines.iter().enumerate() {
        if !has_spelling(alloc, line)? {
            return Ok(i);
        }
    }
    Ok(lines.len())
}

// What lines are of which so many are this, where the next one has no spelling.
fn with_unspelled(spelled: usize, front: Check) -> Check
    requires { spelled + 1 < 2 ^ 32 }
    ensures { result ≡ with_unspelled_of spelled front }
{
    match front {
        Check::Wrong(number) => Check::Wrong(number),
        Check::Derives | Check::Refutes => Check::Wrong(spelled as u32 + 1),
    }
}

/// What lines are, by the text of those before the first that has no spelling: this one isn't right. A text of 2^31 bytes
/// or more is told as want of memory.
pub fn check_lines(alloc: Global, rules: &Rules, lines: &[Line]) -> Result<Check, AllocError>
    requires { length lines.now < 2 ^ 32 }
    ensures { IfOk result (λ c. OfSought rules.now (λ log f v. IsAnswer log f v lines.now c)) }
{
    let spelled = count_spelled(alloc, lines)?;
    let text = print_lines(alloc, &lines[..spelled])?;
    if text.len() >= TOO_LONG {
        return Err(AllocError);
    }
    let front = check_lines_of(alloc, rules, text.as_slice())?.check;
    if spelled == lines.len() {
        Ok(front)
    } else {
        Ok(with_unspelled(spelled, front))
    }
}
