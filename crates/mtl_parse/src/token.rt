//! The tokens of formulas' texts, and what stands at the first of some bytes.

ghost use Rattle.std.specs.Prelude.{◌≡◌, ◌<◌, ◌^◌, length, take_while, true};
ghost use Rattle.std.specs.Option.{SomeIff};
ghost use Rattle.std.specs.List.{list_all, prefix_len};
ghost use Rattle.std.specs.Str.Parse.{digits_value};
ghost use Rattle.mt_model.specs.Name.{is_digit, is_letter, is_name_byte};
ghost use Rattle.mtl_parse.specs.Tokens.{arrow_lexeme, has_leading_zero, is_blank, number_lexeme, sign_lexeme, word_lexeme};
ghost use Rattle.mtl_parse.specs.States.{first_lexeme, lexeme_in};

use mt_model::{MAX_DISTANCE, MAX_NAME_LENGTH};

/// A letter that stands between two formulas.
#[derive(Clone, Copy)]
pub enum Infix {
    /// `U`.
    Until,
    /// `S`.
    Since,
}

/// A letter that stands before a formula.
#[derive(Clone, Copy)]
pub enum Prefix {
    /// `F`.
    Eventually,
    /// `G`.
    Always,
    /// `O`.
    Once,
    /// `H`.
    Historically,
}

/// A token of a formula's text.
#[derive(Clone, Copy)]
pub enum Token<'a> {
    Open,
    Close,
    OpenBracket,
    CloseBracket,
    Comma,
    Dot,
    Bang,
    Ampersand,
    Bar,
    /// `->`.
    Arrow,
    InfixLetter(Infix),
    PrefixLetter(Prefix),
    Number(u64),
    Word(&'a [u8]),
}

/// A token and the byte, from 0, at which it begins.
#[derive(Clone, Copy)]
pub struct Placed<'a> {
    pub token: Token<'a>,
    pub byte: u32,
}

/// What stands at a byte that is no blank.
#[derive(Clone, Copy)]
pub enum Lexeme<'a> {
    /// A token, and the number of its bytes after the first.
    Found(Token<'a>, usize),
    NoToken,
    /// A number with a leading zero or above 10^18.
    BadNumber,
}

/// Whether a byte is a space, tab, carriage return or newline.
pub fn is_blank(byte: u8) -> bool
    ensures { result ≡ is_blank byte }
{
    byte == b' ' || byte == b'\t' || byte == b'\r' || byte == b'\n'
}

fn is_letter(byte: u8) -> bool
    ensures { result ≡ is_letter byte }
{
    byte >= b'a' && byte <= b'z'
}

fn is_digit(byte: u8) -> bool
    ensures { result ≡ is_digit byte }
{
    byte >= b'0' && byte <= b'9'
}

// Whether a byte goes on with a word.
fn is_name_byte(byte: u8) -> bool
    ensures { result ≡ is_name_byte byte }
{
    is_letter(byte) || is_digit(byte) || byte == b'_'
}

fn name_length(bytes: &[u8]) -> usize
    ensures { result ≡ prefix_len is_name_byte bytes.now }
{
    bytes.iter().take_while(|byte| is_name_byte(**byte)).count()
}

// The longest run of name bytes that the bytes begin with.
#[tactic(auto, using(crate::proofs::Runs::names_within))]
fn name_at(bytes: &[u8]) -> &[u8]
    ensures { result.now ≡ take_while is_name_byte bytes.now }
{
    &bytes[..name_length(bytes)]
}

fn digits_length(bytes: &[u8]) -> usize
    ensures { result ≡ prefix_len is_digit bytes.now }
{
    bytes.iter().take_while(|byte| is_digit(**byte)).count()
}

// The longest run of digits that the bytes begin with.
#[tactic(auto, using(crate::proofs::Runs::digits_within))]
fn digits_at(bytes: &[u8]) -> &[u8]
    ensures { result.now ≡ take_while is_digit bytes.now }
{
    &bytes[..digits_length(bytes)]
}

fn word_lexeme(run: &[u8]) -> Lexeme<'_>
    requires { 0 < length run.now }
    ensures { lexeme_in result ≡ word_lexeme run.now }
{
    if run.len() <= MAX_NAME_LENGTH {
        Lexeme::Found(Token::Word(run), run.len() - 1)
    } else {
        Lexeme::NoToken
    }
}

fn has_leading_zero(run: &[u8]) -> bool
    ensures { result ≡ has_leading_zero run.now }
{
    match run {
        [] => false,
        [_] => false,
        [first, _, ..] => *first == b'0',
    }
}

// The number that digits write, where it fits.
fn value_of(digits: &[u8]) -> Option<u64>
    requires digits { list_all is_digit digits.now ≡ true }
    requires some { 0 < length digits.now }
    ensures { SomeIff result (digits_value 10 digits.now < 2 ^ 64) (digits_value 10 digits.now) }
{
    match str::from_utf8(digits) {
        Ok(text) => text.parse().ok(),
        Err(_) => unreachable!(),
    }
}

fn number_lexeme(run: &[u8]) -> Lexeme<'static>
    requires digits { list_all is_digit run.now ≡ true }
    requires some { 0 < length run.now }
    ensures { lexeme_in result ≡ number_lexeme run.now }
{
    if has_leading_zero(run) {
        return Lexeme::BadNumber;
    }
    match value_of(run) {
        Some(value) if value <= MAX_DISTANCE => {
            Lexeme::Found(Token::Number(value), run.len() - 1)
        }
        _ => Lexeme::BadNumber,
    }
}

fn arrow_lexeme(rest: &[u8]) -> Lexeme<'static>
    ensures { lexeme_in result ≡ arrow_lexeme rest.now }
{
    match rest {
        [] => Lexeme::NoToken,
        [first, ..] => {
            if *first == b'>' {
                Lexeme::Found(Token::Arrow, 1)
            } else {
                Lexeme::NoToken
            }
        }
    }
}

fn sign_lexeme(byte: u8) -> Lexeme<'static>
    ensures { lexeme_in result ≡ sign_lexeme byte }
{
    let token = match byte {
        b'(' => Token::Open,
        b')' => Token::Close,
        b'[' => Token::OpenBracket,
        b']' => Token::CloseBracket,
        b',' => Token::Comma,
        b'.' => Token::Dot,
        b'!' => Token::Bang,
        b'&' => Token::Ampersand,
        b'|' => Token::Bar,
        b'U' => Token::InfixLetter(Infix::Until),
        b'S' => Token::InfixLetter(Infix::Since),
        b'F' => Token::PrefixLetter(Prefix::Eventually),
        b'G' => Token::PrefixLetter(Prefix::Always),
        b'O' => Token::PrefixLetter(Prefix::Once),
        b'H' => Token::PrefixLetter(Prefix::Historically),
        _ => return Lexeme::NoToken,
    };
    Lexeme::Found(token, 0)
}

/// What stands at the first of the bytes.
pub fn lexeme_at(bytes: &[u8]) -> Lexeme<'_>
    ensures { lexeme_in result ≡ first_lexeme bytes.now }
{
    match bytes {
        [] => Lexeme::NoToken,
        [first, rest @ ..] => {
            if is_letter(*first) {
                word_lexeme(name_at(bytes))
            } else if is_digit(*first) {
                number_lexeme(digits_at(bytes))
            } else if *first == b'-' {
                arrow_lexeme(rest)
            } else {
                sign_lexeme(*first)
            }
        }
    }
}
