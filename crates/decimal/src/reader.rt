//! Numbers from bytes, with a sign or without one.

ghost use Rattle.std.specs.Prelude.{◌≡◌, ◌^◌, ◌<◌, length, true, IfSome, pos, ◌≤ℤ◌, ◌+ℤ◌};
ghost use Rattle.std.specs.Option.{SomeIff};
ghost use Rattle.std.specs.Char.{is_ascii_digit};
ghost use Rattle.std.specs.List.{list_all};
ghost use Rattle.std.specs.Str.Parse.{digits_value};
ghost use Rattle.decimal.specs.Numbers.{is_number, negated, number_below, number_up_to, signed_up_to};

/// The least number that is too large for an `i128`.
const TOO_LARGE: u128 = 1 << 127;

fn are_digits(bytes: &[u8]) -> bool
    ensures { result ≡ list_all is_ascii_digit bytes.now }
{
    bytes.iter().all(|b| b.is_ascii_digit())
}

// Whether the bytes are a decimal number without a sign or a leading zero.
fn is_decimal(bytes: &[u8]) -> bool
    ensures { result ≡ is_number bytes.now }
{
    match bytes {
        [] => false,
        [only] => only.is_ascii_digit(),
        [first, ..] => *first != b'0' && are_digits(bytes),
    }
}

// The number that digits write, where it fits.
fn value_of(digits: &[u8]) -> Option<u128>
    requires digits { list_all is_ascii_digit digits.now ≡ true }
    requires some { 0 < length digits.now }
    ensures { SomeIff result (digits_value 10 digits.now < 2 ^ 128) (digits_value 10 digits.now) }
{
    match str::from_utf8(digits) {
        Ok(text) => text.parse().ok(),
        Err(_) => unreachable!(),
    }
}

/// The number below a limit that the bytes write in decimal, without a sign or a leading zero.
pub fn number(bytes: &[u8], limit: u128) -> Option<u128>
    ensures value { result ≡ number_below limit bytes.now }
    ensures range { IfSome result (λ n. n < limit) }
{
    if !is_decimal(bytes) {
        return None;
    }
    match value_of(bytes) {
        Some(value) if value < limit => Some(value),
        _ => None,
    }
}

/// The number that the bytes write in decimal, without a sign or a leading zero, where it is at most `most`.
pub fn unsigned_number(bytes: &[u8], most: i128) -> Option<i128>
    ensures value { result ≡ number_up_to most bytes.now }
    ensures low { IfSome result (λ z. pos 0 ≤ℤ z) }
    ensures high { IfSome result (λ z. z ≤ℤ most) }
{
    let value = number(bytes, TOO_LARGE)? as i128;
    if value <= most { Some(value) } else { None }
}

fn opposite(value: i128) -> Option<i128>
    requires { pos 0 ≤ℤ value }
    ensures { result ≡ negated value }
{
    if value == 0 { None } else { Some(-value) }
}

/// The number that the bytes write in decimal, with or without a minus, where its magnitude is at most
/// `most`; there is no `+`, no leading zero and no `-0`.
pub fn signed_number(bytes: &[u8], most: i128) -> Option<i128>
    ensures value { result ≡ signed_up_to most bytes.now }
    ensures low { IfSome result (λ z. pos 0 ≤ℤ (z +ℤ most)) }
    ensures high { IfSome result (λ z. z ≤ℤ most) }
{
    match bytes.split_first() {
        Some((b'-', digits)) => opposite(unsigned_number(digits, most)?),
        _ => unsigned_number(bytes, most),
    }
}
