//! Division. By zero a quotient is all ones and a remainder the dividend.
ghost use Rattle.std.specs.Prelude.{◌≡◌};
ghost use Rattle.rv64_isa.specs.Arithmetic.{quotient, remainder, quotient_unsigned, remainder_unsigned};

use crate::signs::{amount, amount_word, negative, negative_word, signed, signed_word};

/// The quotient of signed numbers, rounded towards zero.
pub(crate) fn divided(a: u64, b: u64) -> u64
    ensures { result ≡ quotient 64 a b }
{
    if b == 0 {
        u64::MAX
    } else {
        signed(negative(a) != negative(b), amount(a) / amount(b))
    }
}

/// The remainder of signed numbers; its sign is that of the dividend.
pub(crate) fn remaining(a: u64, b: u64) -> u64
    ensures { result ≡ remainder 64 a b }
{
    if b == 0 {
        a
    } else {
        signed(negative(a), amount(a) % amount(b))
    }
}

/// The quotient of unsigned numbers.
pub(crate) fn divided_unsigned(a: u64, b: u64) -> u64
    ensures { result ≡ quotient_unsigned 64 a b }
{
    if b == 0 { u64::MAX } else { a / b }
}

/// The remainder of unsigned numbers.
pub(crate) fn remaining_unsigned(a: u64, b: u64) -> u64
    ensures { result ≡ remainder_unsigned 64 a b }
{
    if b == 0 { a } else { a % b }
}

/// The quotient of signed words, rounded towards zero.
pub(crate) fn divided_word(a: u32, b: u32) -> u32
    ensures { result ≡ quotient 32 a b }
{
    if b == 0 {
        u32::MAX
    } else {
        signed_word(
            negative_word(a) != negative_word(b),
            amount_word(a) / amount_word(b),
        )
    }
}

/// The remainder of signed words; its sign is that of the dividend.
pub(crate) fn remaining_word(a: u32, b: u32) -> u32
    ensures { result ≡ remainder 32 a b }
{
    if b == 0 {
        a
    } else {
        signed_word(negative_word(a), amount_word(a) % amount_word(b))
    }
}

/// The quotient of unsigned words.
pub(crate) fn divided_unsigned_word(a: u32, b: u32) -> u32
    ensures { result ≡ quotient_unsigned 32 a b }
{
    if b == 0 { u32::MAX } else { a / b }
}

/// The remainder of unsigned words.
pub(crate) fn remaining_unsigned_word(a: u32, b: u32) -> u32
    ensures { result ≡ remainder_unsigned 32 a b }
{
    if b == 0 { a } else { a % b }
}
