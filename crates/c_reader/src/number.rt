//! Numbers.
ghost use Rattle.std.specs.Prelude.{◌≡◌, ◌<◌, ◌≤◌, ◌^◌, ◌+◌, ◌*◌, length, IfNone, IfSome};
ghost use Rattle.std.specs.Char.{digit_value, is_digit};
ghost use Rattle.std.specs.List.{prefix_len};
ghost use Rattle.std.specs.Option.{option_map};
ghost use Rattle.std.specs.Str.Parse.{digits_value};
ghost use Rattle.c_tree.specs.LexicalScan.{suffix_of, literal_in, hexadecimal, number_of};
ghost use Rattle.c_reader.specs.links.Tokens.{value_of};

use crate::byte::digit_value;
use crate::token::Literal;
use ido_ints::{Base, Suffix, literal_kind};

/// `u`, `l`, `ul` or `lu` in any case, or nothing.
fn suffix_of(bytes: &[u8]) -> Option<Suffix>
    ensures { result ≡ suffix_of bytes.now }
{
    match bytes {
        [] => Some(Suffix::Absent),
        [b'u' | b'U'] => Some(Suffix::U),
        [b'l' | b'L'] => Some(Suffix::L),
        [b'u' | b'U', b'l' | b'L'] | [b'l' | b'L', b'u' | b'U'] => Some(Suffix::Ul),
        _ => None,
    }
}

/// How many digits of the radix stand at the front.
fn digit_prefix(bytes: &[u8], radix: u64) -> usize
    ensures value { result ≡ prefix_len (λ c. is_digit c radix) bytes.now }
    ensures bound { result ≤ length bytes.now }
{
    bytes
        .iter()
        .take_while(|c| digit_value(**c) < radix)
        .count()
}

/// The number with this digit after its own; none where that is 2^64 or more.
fn with_digit(number: u64, digit: u8, radix: u64) -> Option<u64>
    ensures none { IfNone result (2 ^ 64 ≤ number * radix + digit_value digit) }
    ensures value { IfSome result (λ n. n ≡ number * radix + digit_value digit) }
{
    number.checked_mul(radix)?.checked_add(digit_value(digit))
}

/// The number that the digits spell; none where it is 2^64 or more.
fn digits_value(digits: &[u8], radix: u64) -> Option<u64>
    requires { 0 < radix }
    ensures none { IfNone result (2 ^ 64 ≤ digits_value radix digits.now) }
    ensures value { IfSome result (λ n. n ≡ digits_value radix digits.now) }
{
    let mut number = 0;
    for digit in digits {
        number = with_digit(number, *digit, radix)?;
    }
    Some(number)
}

/// The number that digits of the radix and a suffix after them spell.
fn literal_in(base: Base, radix: u64, bytes: &[u8]) -> Option<Literal>
    requires { 0 < radix }
    ensures { option_map value_of result ≡ literal_in base radix bytes.now }
{
    let (digits, after) = bytes.split_at(digit_prefix(bytes, radix));
    let suffix = suffix_of(after)?;
    let number = digits_value(digits, radix)?;
    let kind = literal_kind(base, suffix, u128::from(number))?;
    Some(Literal { kind, number })
}

/// The number that stands after `0x`, with at least one digit.
fn hexadecimal(bytes: &[u8]) -> Option<Literal>
    ensures { option_map value_of result ≡ hexadecimal bytes.now }
{
    match bytes {
        [first, ..] if digit_value(*first) < 16 => literal_in(Base::Hexadecimal, 16, bytes),
        _ => None,
    }
}

/// The number that the bytes spell, where they spell one.
pub fn number_of(bytes: &[u8]) -> Option<Literal>
    ensures { option_map value_of result ≡ number_of bytes.now }
{
    match bytes {
        [] => None,
        [b'0', b'x' | b'X', digits @ ..] => hexadecimal(digits),
        [b'0', ..] => literal_in(Base::Octal, 8, bytes),
        _ => literal_in(Base::Decimal, 10, bytes),
    }
}
