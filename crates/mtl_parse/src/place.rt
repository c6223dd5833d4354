//! Where the host of a proposition stands in a formula's text.

ghost use Rattle.std.specs.Prelude.{◌≡◌, ◌↔◌, ◌<◌, ◌^◌, length, Ok, IsSome};
ghost use Rattle.mt_model.specs.Form.{Form, propositions_of};
ghost use Rattle.mtl_parse.specs.FormulaOf.{FormulaOf};
ghost use Rattle.mtl_parse.specs.Places.{host_byte, is_dot};
ghost use Rattle.mtl_parse.specs.States.{token_in};

use crate::token::{Lexeme, Token, is_blank, lexeme_at};

fn is_dot(token: Token<'_>) -> bool
    ensures { result ≡ is_dot (token_in token.entry) }
{
    match token {
        Token::Dot => true,
        _ => false,
    }
}

/// The byte, from 0, of the host of the proposition of an index, from 0 and from left to right, in the
/// text of a formula, and None where it has no such proposition. Takes no memory.
pub fn place_of(bytes: &[u8], index: u32) -> Option<u32>
    requires short { length bytes.now < 2 ^ 31 }
    requires parses { (f : Form) × FormulaOf bytes.now (Ok f) }
    ensures byte { result ≡ host_byte bytes.now index }
    ensures found { (f : Form) → FormulaOf bytes.now (Ok f) → (IsSome result ↔ (index < length (propositions_of f))) }
{
    let mut last = None;
    let mut left = index;
    let mut belong = 0;
    for (i, first) in bytes.iter().enumerate() {
        if belong > 0 {
            belong -= 1;
            continue;
        }
        if is_blank(*first) {
            continue;
        }
        let Lexeme::Found(token, more) = lexeme_at(&bytes[i..]) else {
            return None;
        };
        if is_dot(token) && last.is_some() {
            if left == 0 {
                return last;
            }
            left -= 1;
        }
        last = Some(i as u32);
        belong = more;
    }
    None
}
