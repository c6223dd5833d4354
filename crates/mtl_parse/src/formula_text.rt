//! The formula that a text is.

ghost use Rattle.std.specs.Prelude.{◌≡◌, ◌<◌, ◌^◌, length, map, true, IfErr, IfOk, Ok, Err};
ghost use Rattle.std.specs.List.{list_all};
ghost use Rattle.mt_model.specs.Form.{form_of};
ghost use Rattle.mtl_parse.specs.FormulaOf.{FormulaOf};
ghost use Rattle.mtl_parse.specs.Machine.{capped, is_sound, read_whole};
ghost use Rattle.mtl_parse.specs.States.{form_in, placed_in, token_in};

use crate::FormulaFault;
use crate::operand::Operand;
use crate::parser::Parser;
use crate::token::Placed;
use crate::tokens::{first_empty_interval, tokens_of};
use mt_model::Formula;
use std::alloc::Global;

// The formula that the tokens of a text with this end are.
fn read_tokens(alloc: Global, tokens: &[Placed<'_>], end: u32) -> Result<Operand, FormulaFault>
    requires sound { list_all (λ p. is_sound (token_in p.token)) tokens.now ≡ true }
    ensures ok { IfOk result (λ o. read_whole capped end (map placed_in tokens.now) ≡ Ok (form_in o)) }
    ensures fault { IfErr result (λ e. (e ≡ FormulaFault.Memory → ⊥) → read_whole capped end (map placed_in tokens.now) ≡ Err e) }
{
    let mut parser = Parser::new(alloc);
    for placed in tokens {
        parser = parser.read(alloc, *placed)?;
    }
    match parser.finish(alloc)? {
        Some(operand) => Ok(operand),
        None => Err(FormulaFault::Expected { byte: end }),
    }
}

/// The formula that a text is, or its fault.
///
/// From the loosest to the tightest there are `f -> g`, which binds to the right, `f | g` and `f & g`,
/// which bind to the left, `f U g` and `f S g`, which bind together to the right, and `! f`, `F f`,
/// `G f`, `O f` and `H f`. The letters take an interval `[a,b]` or `[a,inf]` behind them, a and b in the
/// log's unit and at most 10^18, and without one have `[0,inf]`. The smallest formulas are `true`, `false`
/// and `host.name`, and parentheses group. Spaces, tabs, carriage returns and newlines may stand between
/// tokens.
///
/// The faults come in this order: a byte that begins no token or a number out of form, whichever is
/// first; no token at all; a token that no formula goes on with, or an early end; an empty interval, the
/// leftmost; a height above 200.
pub fn parse_formula(alloc: Global, bytes: &[u8]) -> Result<Formula, FormulaFault>
    requires { length bytes.now < 2 ^ 31 }
    ensures formula { IfOk result (λ f. FormulaOf bytes.now (Ok (form_of f))) }
    ensures fault { IfErr result (λ fault. (fault ≡ FormulaFault.Memory → ⊥) → FormulaOf bytes.now (Err fault)) }
{
    let tokens = tokens_of(alloc, bytes)?;
    if tokens.is_empty() {
        return Err(FormulaFault::Empty { byte: 0 });
    }
    let operand = read_tokens(alloc, &tokens, bytes.len() as u32)?;
    if let Some(byte) = first_empty_interval(&tokens) {
        return Err(FormulaFault::EmptyInterval { byte });
    }
    match operand {
        Operand::TooHigh => Err(FormulaFault::TooDeep { byte: 0 }),
        Operand::Low(low) => match Formula::new(low.into_tree()) {
            Some(formula) => Ok(formula),
            None => unreachable!(),
        },
    }
}
