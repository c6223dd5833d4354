//! Whether the next line is right by its words, given the clauses of the lines before it.

ghost use Rattle.std.specs.Prelude.{◌≡◌, ◌↔◌, ◌+◌, ◌<◌, ◌^◌, ◌∷◌, [], ◌++◌, if◌then◌else◌, List, length, IfOk, IfSome, IsTrue, MatchOption, None, Some};
ghost use Rattle.std.specs.Result.{result_ok};
ghost use Rattle.axiom_rules.specs.declared.literal.Literal.{Literal};
ghost use Rattle.axiom_rules.specs.Clauses.{clause_of as clause_of_rule};
ghost use Rattle.proof_log.specs.declared.line.Hint.{Hint};
ghost use Rattle.proof_check.specs.Judging.{IsHintTaken, IsNextLearnt, NextRefutes, IsRuleTaken};
ghost use Rattle.proof_check.specs.Keeping.{ArePending, closed_only, lines_with, with_closed};
ghost use Rattle.proof_check.specs.Refutation.{IsTaken};
ghost use Rattle.proof_check.specs.Standing.{IsSpanOrGap};
ghost use Rattle.proof_check.specs.WordsOf.{OfCountedHints, OfHints, OfLearn, OfLiterals};

use crate::clauses::cited_clause;
use crate::guesses::{Clue, Guesses, SHORT};
use crate::kept::Clauses;
use crate::range::are_in_range;
use crate::refutation::{Assumed, Taken};
use axiom_rules::{Atom, Literal, Rule, RuleFault, Rules, SPAN_OR_GAP};
use hint_refutation::{assumed_is_set, refuters_give, steps_are_forced};
use proof_log::{Hint, read_count, read_hint, read_literal};
use smallvec::SmallVec;
use std::alloc::{AllocError, Global};

/// Room for the clause of a rule.
pub type Clause = SmallVec<Literal, 8, Global>;

/// What makes judging quick. Whatever it holds, judging is right.
#[derive(Drop)]
pub struct Aids {
    pub room: Clause,
    pub guesses: Guesses,
}

impl Aids {
    /// No guess, and room that takes no memory yet.
    pub fn new(alloc: Global, rules: &Rules) -> Aids {
        Aids {
            room: SmallVec::new(alloc),
            guesses: Guesses::new(alloc, rules),
        }
    }
}

// Whether a rule has a clause, which is then written.
fn writes_clause(rules: &Rules, rule: &Rule, clause: &mut Clause) -> Result<bool, AllocError>
    ensures { IfOk result (λ b. result_ok (clause_of_rule rules.now rule.now) ≡ (if b then Some clause.new.items else None)) }
{
    match rules.clause_of(rule, clause) {
        Ok(()) => Ok(true),
        Err(RuleFault::Memory) => Err(AllocError),
        Err(_) => Ok(false),
    }
}

// The literal of its span, where a rule says that there is a span or a gap.
fn span_in(rules: &Rules, rule: &Rule) -> Option<Literal>
    ensures { IfSome result (IsSpanOrGap rules.now rule.now) }
{
    let [k, i, j, unused] = rule.args;
    let events = rules.events();
    if rule.number == SPAN_OR_GAP && rules.is_reach(k) && i < events && j < events && unused == 0 {
        Some(Literal {
            atom: Atom::Span { k, i, j },
            positive: true,
        })
    } else {
        None
    }
}

// Takes the clause of a rule.
fn take_rule(
    rules: &Rules,
    rule: &Rule,
    assumed: &mut Assumed,
    aids: &mut Aids,
) -> Result<Taken, AllocError>
    ensures { IfOk result (IsRuleTaken rules.now rule.now assumed.old assumed.new) }
{
    // So that such clauses aren't walked over for each of their spans.
    if let Some(span) = span_in(rules, rule) {
        if !assumed.has(&span.negated())
            && assumed.find_no_gaps(rule.args[0], rule.args[1], rules.events())?
        {
            return assumed.take(&[span], Clue::Nothing);
        }
    }
    if writes_clause(rules, rule, &mut aids.room)? {
        take_written(aids.room.as_slice(), assumed, &mut aids.guesses)
    } else {
        Ok(Taken::Stuck)
    }
}

// Takes a clause that was written.
fn take_written(
    clause: &[Literal],
    assumed: &mut Assumed,
    guesses: &mut Guesses,
) -> Result<Taken, AllocError>
    ensures { IfOk result (λ taken. IsTaken assumed.old clause.now assumed.new taken) }
{
    if clause.len() > SHORT && is_of_instants(clause) {
        guesses.make_instants(assumed)?;
        assumed.take(clause, Clue::Instant(guesses))
    } else {
        assumed.take(clause, Clue::Nothing)
    }
}

// Whether the last literal of a clause is that of an instant.
fn is_of_instants(clause: &[Literal]) -> bool {
    match clause.last() {
        Some(literal) => matches!(literal.atom, Atom::Same { .. }),
        None => false,
    }
}

// Takes the clause of line m.
fn take_cited(
    kept: &Clauses,
    m: u32,
    clause: &[Literal],
    assumed: &mut Assumed,
    guesses: &mut Guesses,
) -> Result<Taken, AllocError>
    ensures { IfOk result (λ taken. IsTaken assumed.old clause.now assumed.new taken) }
{
    if clause.len() <= SHORT {
        return assumed.take(clause, Clue::Nothing);
    }
    let start = kept.start((m as usize).saturating_sub(1));
    guesses.make(kept.literals(), start, clause.len(), assumed)?;
    assumed.take(clause, guesses.clue(start, clause.len()))
}

// Takes the clause of a hint of the line after those whose clauses are closed.
fn take_hint(
    rules: &Rules,
    kept: &Clauses,
    hint: Hint,
    assumed: &mut Assumed,
    aids: &mut Aids,
) -> Result<Taken, AllocError>
    ensures { IfOk result (λ taken. IsHintTaken rules.now (lines_with kept.now.closed) (length kept.now.closed + 1) hint assumed.old assumed.new taken) }
{
    match hint {
        Hint::Line(m) => match cited_clause(kept, m) {
            Some(lits) => take_cited(kept, m, lits, assumed, &mut aids.guesses),
            None => Ok(Taken::Stuck),
        },
        Hint::Rule(rule) => take_rule(rules, &rule, assumed, aids),
    }
}

// Whether so many hints, the words of which follow, refute what is assumed. Each is taken as it is read.
fn are_refuting(
    rules: &Rules,
    kept: &Clauses,
    count: u32,
    words: &[u8],
    assumed: &mut Assumed,
    aids: &mut Aids,
) -> Result<bool, AllocError>
    ensures { IfOk result (λ b. OfHints count words.now (λ hints. IsTrue b ↔ NextRefutes rules.now kept.now.closed assumed.old hints)) }
{
    refuters_give::<Literal>();
    assumed_is_set::<Literal>();
    steps_are_forced::<Literal>();
    let mut rest = words;
    for i in 0..count {
        let Some((hint, after)) = read_hint(rest) else {
            return Ok(false);
        };
        match take_hint(rules, kept, hint, assumed, aids)? {
            Taken::Gives => rest = after,
            Taken::False => return Ok(i + 1 == count),
            Taken::Stuck => return Ok(false),
        }
    }
    Ok(false)
}

// Whether the pending literals are in range, and hints, the words of which follow their number, refute their negations.
fn is_learnt(
    alloc: Global,
    rules: &Rules,
    kept: &Clauses,
    words: &[u8],
    aids: &mut Aids,
) -> Result<bool, AllocError>
    requires few { length kept.now.pending < 2 ^ 32 }
    ensures { IfOk result (λ b. OfCountedHints words.now (λ hints. IsTrue b ↔ IsNextLearnt rules.now kept.now.closed kept.now.pending hints)) }
{
    refuters_give::<Literal>();
    assumed_is_set::<Literal>();
    steps_are_forced::<Literal>();
    let lits = kept.pending();
    if !are_in_range(rules, lits) {
        return Ok(false);
    }
    let mut assumed = Assumed::denying(alloc, lits, aids.guesses.is_any_long())?;
    let (count, hints) = read_count(words);
    are_refuting(rules, kept, count, hints, &mut assumed, aids)
}

// Adds the literals, the words of which follow their number, to the pending clause. The words after them.
fn push_literals<'a>(kept: &mut Clauses, words: &'a [u8]) -> Result<Option<&'a [u8]>, AllocError>
    ensures literals { IfOk result (λ o. OfLiterals words.now (λ lits after. MatchOption o ⊥ (λ r. ArePending kept.old lits kept.new after r.now))) }
    ensures closed { IfOk result (λ _. kept.new.closed ≡ kept.old.closed) }
    ensures few { IfOk result (λ _. length kept.new.pending < length kept.old.pending + 2 ^ 32) }
{
    let (count, first) = read_count(words);
    let mut rest = first;
    for _i in 0..count {
        let Some((literal, after)) = read_literal(rest) else {
            return Ok(None);
        };
        kept.push(literal)?;
        rest = after;
    }
    Ok(Some(rest))
}

/// Whether a Learn line of these words is right. If so, its clause is closed.
pub fn takes_learn(
    alloc: Global,
    rules: &Rules,
    kept: &mut Clauses,
    aids: &mut Aids,
    words: &[u8],
) -> Result<bool, AllocError>
    requires open { kept.old.pending ≡ [] }
    ensures learnt { IfOk result (λ b. OfLearn words.now (λ lits hints. IsTrue b ↔ IsNextLearnt rules.now kept.old.closed lits hints)) }
    ensures grown { IfOk result (λ b. IsTrue b → (clause : List Literal) × (kept.new ≡ closed_only (kept.old.closed ++ clause ∷ []))) }
    ensures kept { IfOk result (λ b. OfLearn words.now (λ lits hints. IsTrue b → kept.new ≡ with_closed kept.old.closed lits)) }
{
    let Some(hints) = push_literals(kept, words)? else {
        return Ok(false);
    };
    if !is_learnt(alloc, rules, kept, hints, aids)? {
        return Ok(false);
    }
    kept.close()?;
    Ok(true)
}
