//! The tokens of a whole text, and the first of its intervals that is empty.

ghost use Rattle.std.specs.Prelude.{◌≡◌, ◌<◌, ◌^◌, length, map, IfErr, IfOk, Ok, Err};
ghost use Rattle.mtl_parse.specs.Tokens.{tokens_of};
ghost use Rattle.mtl_parse.specs.FormulaOf.{begins_below, begins_with_empty_interval, first_empty_interval, has_bound_below, has_bounds_exchanged, tokens_in};
ghost use Rattle.mtl_parse.specs.States.{placed_in};

use crate::FormulaFault;
use crate::token::{Lexeme, Placed, Token, is_blank, lexeme_at};
use std::alloc::{AllocError, Global};

/// The tokens of a text, or the first byte at which stands neither a token nor a blank.
pub fn tokens_of(alloc: Global, bytes: &[u8]) -> Result<Vec<Placed<'_>>, FormulaFault>
    requires { length bytes.now < 2 ^ 31 }
    ensures tokens { IfOk result (λ tokens. tokens_of bytes.now ≡ Ok (map placed_in tokens.items)) }
    ensures fault { IfErr result (λ e. (e ≡ FormulaFault.Memory → ⊥) → tokens_of bytes.now ≡ Err e) }
{
    let mut tokens = Vec::new(alloc);
    let mut belong = 0;
    for (i, first) in bytes.iter().enumerate() {
        if belong > 0 {
            belong -= 1;
            continue;
        }
        if is_blank(*first) {
            continue;
        }
        let byte = i as u32;
        match lexeme_at(&bytes[i..]) {
            Lexeme::Found(token, more) => {
                tokens
                    .push(Placed { token, byte })
                    .map_err(AllocError::from)?;
                belong = more;
            }
            Lexeme::NoToken => return Err(FormulaFault::Token { byte }),
            Lexeme::BadNumber => return Err(FormulaFault::Number { byte }),
        }
    }
    Ok(tokens)
}

fn begins_below(low: u64, tokens: &[Placed<'_>]) -> bool
    ensures { result ≡ begins_below low (tokens_in (map placed_in tokens.now)) }
{
    match tokens {
        [] => false,
        [first, ..] => match first.token {
            Token::Number(high) => high < low,
            _ => false,
        },
    }
}

fn has_bound_below(low: u64, tokens: &[Placed<'_>]) -> bool
    ensures { result ≡ has_bound_below low (tokens_in (map placed_in tokens.now)) }
{
    match tokens {
        [] => false,
        [first, rest @ ..] => match first.token {
            Token::Comma => begins_below(low, rest),
            _ => false,
        },
    }
}

fn has_bounds_exchanged(tokens: &[Placed<'_>]) -> bool
    ensures { result ≡ has_bounds_exchanged (tokens_in (map placed_in tokens.now)) }
{
    match tokens {
        [] => false,
        [first, rest @ ..] => match first.token {
            Token::Number(low) => has_bound_below(low, rest),
            _ => false,
        },
    }
}

fn begins_with_empty_interval(tokens: &[Placed<'_>]) -> bool
    ensures { result ≡ begins_with_empty_interval (tokens_in (map placed_in tokens.now)) }
{
    match tokens {
        [] => false,
        [first, rest @ ..] => match first.token {
            Token::OpenBracket => has_bounds_exchanged(rest),
            _ => false,
        },
    }
}

/// The byte of the leftmost `[` of an interval whose first bound is above its second.
pub fn first_empty_interval(tokens: &[Placed<'_>]) -> Option<u32>
    ensures { result ≡ first_empty_interval (map placed_in tokens.now) }
{
    for (i, placed) in tokens.iter().enumerate() {
        if begins_with_empty_interval(&tokens[i..]) {
            return Some(placed.byte);
        }
    }
    None
}
