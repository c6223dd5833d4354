//! Formulas from tokens, one token after another; what is pending waits on a stack.

ghost use Rattle.std.specs.Prelude.{◌≡◌, ◌∷◌, IfOk, IfErr, Ok, Err, Some, None, option_map, true, ◌≢◌};
ghost use Rattle.mtl_parse.specs.Tokens.{Word};
ghost use Rattle.mtl_parse.specs.Machine.{LeftOfAnd, LeftOfImplies, LeftOfOr, Wanted, after_word, begin, capped, closed, complete, finish, finished, high_bound, is_sound, left_of, letter_after, read_one, refusal_behind, step_bracket, step_comma, step_dot, step_high, step_host, step_letter, step_low, step_wanted};
ghost use Rattle.mtl_parse.specs.States.{completed_in, form_in, infix_in, letter_in, pending_in, placed_in, read_after, stack_in, state_in, token_in};

use crate::FormulaFault;
use crate::operand::Operand;
use crate::pending::{Completed, Letter, Pending, complete, has_opened};
use crate::token::{Infix, Placed, Token};
use mt_model::{Interval, Name, Tree};
use std::alloc::{AllocError, Global};

/// What the last tokens were, and what may follow.
#[derive(Drop)]
pub enum Stage {
    /// An operand is wanted.
    Wanted,
    /// The host of a proposition.
    Host(Name),
    /// A host and its dot.
    Dot(Name),
    /// A letter, which an interval may follow.
    Letter(Letter),
    /// A letter and `[`.
    Bracket(Letter),
    /// These and the lower bound.
    LowBound(Letter, u64),
    /// These and the comma.
    Comma(Letter, u64),
    /// These and the upper bound.
    HighBound(Letter, Interval),
    /// An operand.
    Read(Operand),
}

/// A formula that is read token by token. What is pending stands innermost last.
#[derive(Drop)]
pub struct Parser {
    pub stack: Vec<Pending>,
    pub stage: Stage,
}

// What waits for an operand stands innermost.
fn pushed(mut stack: Vec<Pending>, pending: Pending) -> Result<Vec<Pending>, AllocError>
    ensures { IfOk result (λ s. stack_in s.items ≡ pending_in pending ∷ stack_in stack.items) }
{
    stack.push(pending).map_err(AllocError::from)?;
    Ok(stack)
}

// What waits for an operand is read.
fn wanted(stack: Vec<Pending>, pending: Pending) -> Result<Parser, AllocError>
    ensures { IfOk result (λ p. state_in p ≡ record { stack = pending_in pending ∷ stack_in stack.items; stage = Wanted }) }
{
    Ok(Parser {
        stack: pushed(stack, pending)?,
        stage: Stage::Wanted,
    })
}

fn word_name(alloc: Global, word: &[u8]) -> Result<Name, AllocError>
    requires { is_sound (Word word.now) ≡ true }
    ensures { IfOk result (λ name. name ≡ word.now) }
{
    match Name::new(alloc, word)? {
        Some(name) => Ok(name),
        None => unreachable!(),
    }
}

// A word where an operand is wanted.
fn after_word(alloc: Global, stack: Vec<Pending>, word: &[u8]) -> Result<Option<Parser>, AllocError>
    requires { is_sound (Word word.now) ≡ true }
    ensures { IfOk result (λ o. option_map state_in o ≡ after_word (stack_in stack.items) word.now) }
{
    let stage = if word == b"true".as_slice() {
        Stage::Read(Operand::leaf(alloc, Tree::True)?)
    } else if word == b"false".as_slice() {
        Stage::Read(Operand::leaf(alloc, Tree::False)?)
    } else if word == b"inf".as_slice() {
        return Ok(None);
    } else {
        Stage::Host(word_name(alloc, word)?)
    };
    Ok(Some(Parser { stack, stage }))
}

fn step_wanted(
    alloc: Global,
    stack: Vec<Pending>,
    token: Token<'_>,
) -> Result<Option<Parser>, AllocError>
    requires { is_sound (token_in token) ≡ true }
    ensures { IfOk result (λ o. option_map state_in o ≡ step_wanted (stack_in stack.items) (token_in token.entry)) }
{
    match token {
        Token::Open => Ok(Some(wanted(stack, Pending::Opened)?)),
        Token::Bang => Ok(Some(wanted(stack, Pending::Negation)?)),
        Token::PrefixLetter(op) => Ok(Some(Parser {
            stack,
            stage: Stage::Letter(Letter::OfOne(op)),
        })),
        Token::Word(word) => after_word(alloc, stack, word),
        _ => Ok(None),
    }
}

fn step_host(stack: Vec<Pending>, host: Name, token: Token<'_>) -> Option<Parser>
    ensures { option_map state_in result ≡ step_host (stack_in stack.items) host (token_in token.entry) }
{
    match token {
        Token::Dot => Some(Parser {
            stack,
            stage: Stage::Dot(host),
        }),
        _ => None,
    }
}

fn step_dot(
    alloc: Global,
    stack: Vec<Pending>,
    host: Name,
    token: Token<'_>,
) -> Result<Option<Parser>, AllocError>
    requires { is_sound (token_in token) ≡ true }
    ensures { IfOk result (λ o. option_map state_in o ≡ step_dot (stack_in stack.items) host (token_in token.entry)) }
{
    match token {
        Token::Word(word) => {
            let name = word_name(alloc, word)?;
            let operand = Operand::leaf(alloc, Tree::Prop { host, name })?;
            Ok(Some(Parser {
                stack,
                stage: Stage::Read(operand),
            }))
        }
        _ => Ok(None),
    }
}

fn step_letter(
    alloc: Global,
    stack: Vec<Pending>,
    letter: Letter,
    token: Token<'_>,
) -> Result<Option<Parser>, AllocError>
    requires { is_sound (token_in token) ≡ true }
    ensures { IfOk result (λ o. option_map state_in o ≡ step_letter (stack_in stack.items) (letter_in letter) (token_in token.entry)) }
{
    match token {
        Token::OpenBracket => Ok(Some(Parser {
            stack,
            stage: Stage::Bracket(letter),
        })),
        _ => {
            let everything = Interval { low: 0, high: None };
            let stack = pushed(stack, Pending::Timed(letter, everything))?;
            step_wanted(alloc, stack, token)
        }
    }
}

fn step_bracket(stack: Vec<Pending>, letter: Letter, token: Token<'_>) -> Option<Parser>
    ensures { option_map state_in result ≡ step_bracket (stack_in stack.items) (letter_in letter) (token_in token.entry) }
{
    match token {
        Token::Number(low) => Some(Parser {
            stack,
            stage: Stage::LowBound(letter, low),
        }),
        _ => None,
    }
}

fn step_low(stack: Vec<Pending>, letter: Letter, low: u64, token: Token<'_>) -> Option<Parser>
    ensures { option_map state_in result ≡ step_low (stack_in stack.items) (letter_in letter) low (token_in token.entry) }
{
    match token {
        Token::Comma => Some(Parser {
            stack,
            stage: Stage::Comma(letter, low),
        }),
        _ => None,
    }
}

// The upper bound that a token is; `inf` is none.
fn high_bound(token: Token<'_>) -> Option<Option<u64>>
    ensures { result ≡ high_bound (token_in token.entry) }
{
    match token {
        Token::Number(high) => Some(Some(high)),
        Token::Word(word) => {
            if word == b"inf".as_slice() {
                Some(None)
            } else {
                None
            }
        }
        _ => None,
    }
}

fn step_comma(stack: Vec<Pending>, letter: Letter, low: u64, token: Token<'_>) -> Option<Parser>
    ensures { option_map state_in result ≡ step_comma (stack_in stack.items) (letter_in letter) low (token_in token.entry) }
{
    let high = high_bound(token)?;
    Some(Parser {
        stack,
        stage: Stage::HighBound(letter, Interval { low, high }),
    })
}

fn step_high(
    stack: Vec<Pending>,
    letter: Letter,
    interval: Interval,
    token: Token<'_>,
) -> Result<Option<Parser>, AllocError>
    ensures { IfOk result (λ o. option_map state_in o ≡ step_high (stack_in stack.items) (letter_in letter) interval (token_in token.entry)) }
{
    match token {
        Token::CloseBracket => Ok(Some(wanted(stack, Pending::Timed(letter, interval))?)),
        _ => Ok(None),
    }
}

// The fault of a token that no formula goes on with, behind an operand.
#[tactic(auto, using(crate::proofs::Stacks::opened_any))]
fn refusal_behind(stack: &[Pending], byte: u32) -> FormulaFault
    ensures { result ≡ refusal_behind (stack_in stack.now) byte }
{
    if has_opened(stack) {
        FormulaFault::Expected { byte }
    } else {
        FormulaFault::Trailing { byte }
    }
}

// The operand behind the last open parenthesis, which is closed.
fn closed(completed: Completed) -> Option<Parser>
    ensures { option_map state_in result ≡ closed (completed_in completed) }
{
    let Completed { mut stack, operand } = completed;
    match stack.pop() {
        Some(_) => Some(Parser {
            stack,
            stage: Stage::Read(operand),
        }),
        None => None,
    }
}

fn after_close(
    alloc: Global,
    stack: Vec<Pending>,
    operand: Operand,
    byte: u32,
) -> Result<Parser, FormulaFault>
    ensures ok { IfOk result (λ p. closed (complete capped 1 (stack_in stack.items) (form_in operand)) ≡ Some (state_in p)) }
    ensures none { IfErr result (λ e. (e ≡ FormulaFault.Memory → ⊥) → closed (complete capped 1 (stack_in stack.items) (form_in operand)) ≡ None) }
    ensures fault { IfErr result (λ e. (e ≡ FormulaFault.Memory → ⊥) → e ≡ refusal_behind (stack_in stack.items) byte) }
{
    match closed(complete(alloc, 1, stack, operand)?) {
        Some(parser) => Ok(parser),
        None => Err(FormulaFault::Trailing { byte }),
    }
}

fn after_and(alloc: Global, stack: Vec<Pending>, operand: Operand) -> Result<Parser, AllocError>
    ensures { IfOk result (λ p. left_of LeftOfAnd (complete capped 3 (stack_in stack.items) (form_in operand)) ≡ Some (state_in p)) }
{
    let Completed { stack, operand } = complete(alloc, 3, stack, operand)?;
    wanted(stack, Pending::LeftOfAnd(operand))
}

fn after_or(alloc: Global, stack: Vec<Pending>, operand: Operand) -> Result<Parser, AllocError>
    ensures { IfOk result (λ p. left_of LeftOfOr (complete capped 2 (stack_in stack.items) (form_in operand)) ≡ Some (state_in p)) }
{
    let Completed { stack, operand } = complete(alloc, 2, stack, operand)?;
    wanted(stack, Pending::LeftOfOr(operand))
}

// `->` leaves an earlier `->` pending, since it binds to the right.
fn after_arrow(alloc: Global, stack: Vec<Pending>, operand: Operand) -> Result<Parser, AllocError>
    ensures { IfOk result (λ p. left_of LeftOfImplies (complete capped 2 (stack_in stack.items) (form_in operand)) ≡ Some (state_in p)) }
{
    let Completed { stack, operand } = complete(alloc, 2, stack, operand)?;
    wanted(stack, Pending::LeftOfImplies(operand))
}

// `U` and `S` leave an earlier one pending, since they bind to the right.
fn after_between(
    alloc: Global,
    stack: Vec<Pending>,
    operand: Operand,
    op: Infix,
) -> Result<Parser, AllocError>
    ensures { IfOk result (λ p. letter_after (infix_in op) (complete capped 5 (stack_in stack.items) (form_in operand)) ≡ Some (state_in p)) }
{
    let Completed { stack, operand } = complete(alloc, 5, stack, operand)?;
    Ok(Parser {
        stack,
        stage: Stage::Letter(Letter::OfTwo(op, operand)),
    })
}

fn step_read(
    alloc: Global,
    stack: Vec<Pending>,
    operand: Operand,
    token: Token<'_>,
    byte: u32,
) -> Result<Parser, FormulaFault>
    ensures ok { IfOk result (λ p. read_after stack.items operand token.entry ≡ Some (state_in p)) }
    ensures none { IfErr result (λ e. e ≢ FormulaFault.Memory → read_after stack.items operand token.entry ≡ None) }
    ensures fault { IfErr result (λ e. e ≢ FormulaFault.Memory → e ≡ refusal_behind (stack_in stack.items) byte) }
{
    match token {
        Token::Close => after_close(alloc, stack, operand, byte),
        Token::Ampersand => Ok(after_and(alloc, stack, operand)?),
        Token::Bar => Ok(after_or(alloc, stack, operand)?),
        Token::Arrow => Ok(after_arrow(alloc, stack, operand)?),
        Token::InfixLetter(op) => Ok(after_between(alloc, stack, operand, op)?),
        _ => Err(refusal_behind(&stack, byte)),
    }
}

// The operand, where nothing is pending before it.
fn finished(completed: Completed) -> Option<Operand>
    ensures { option_map form_in result ≡ finished (completed_in completed) }
{
    let Completed { stack, operand } = completed;
    if stack.is_empty() {
        Some(operand)
    } else {
        None
    }
}

impl Parser {
    /// Nothing is read yet.
    pub fn new(alloc: Global) -> Parser
        ensures { state_in result ≡ begin }
    {
        Parser {
            stack: Vec::new(alloc),
            stage: Stage::Wanted,
        }
    }

    /// Takes one more token in. The fault is that of a token that no formula goes on with.
    pub fn read(self, alloc: Global, placed: Placed<'_>) -> Result<Parser, FormulaFault>
        requires { is_sound (token_in placed.token) ≡ true }
        ensures ok { IfOk result (λ p. read_one capped (state_in self) (placed_in placed.entry) ≡ Ok (state_in p)) }
        ensures fault { IfErr result (λ e. (e ≡ FormulaFault.Memory → ⊥) → read_one capped (state_in self) (placed_in placed.entry) ≡ Err e) }
    {
        let Parser { stack, stage } = self;
        let Placed { token, byte } = placed;
        let next = match stage {
            Stage::Read(operand) => return step_read(alloc, stack, operand, token, byte),
            Stage::Wanted => step_wanted(alloc, stack, token),
            Stage::Host(host) => Ok(step_host(stack, host, token)),
            Stage::Dot(host) => step_dot(alloc, stack, host, token),
            Stage::Letter(letter) => step_letter(alloc, stack, letter, token),
            Stage::Bracket(letter) => Ok(step_bracket(stack, letter, token)),
            Stage::LowBound(letter, low) => Ok(step_low(stack, letter, low, token)),
            Stage::Comma(letter, low) => Ok(step_comma(stack, letter, low, token)),
            Stage::HighBound(letter, interval) => step_high(stack, letter, interval, token),
        };
        match next? {
            Some(parser) => Ok(parser),
            None => Err(FormulaFault::Expected { byte }),
        }
    }

    /// The formula that was read, where nothing is left open.
    pub fn finish(self, alloc: Global) -> Result<Option<Operand>, AllocError>
        ensures { IfOk result (λ o. option_map form_in o ≡ finish capped (state_in self)) }
    {
        let Parser { stack, stage } = self;
        match stage {
            Stage::Read(operand) => Ok(finished(complete(alloc, 1, stack, operand)?)),
            _ => Ok(None),
        }
    }
}
