//! Shifts by the low bits of a count.
ghost use Rattle.std.specs.Prelude.{◌≡◌, ◌*◌, ◌/◌, ◌%◌, ◌^◌, ◌<◌};
ghost use Rattle.rv64_isa.specs.Arithmetic.{shifted_arithmetic, word_result};

use crate::signs::{extended, negative, negative_word, word, word_of};

/// To the left, by the low 6 bits of the count.
pub(crate) fn left(a: u64, count: u64) -> u64
    ensures { result ≡ a * 2 ^ (count % 64) % 2 ^ 64 }
{
    a << (count % 64)
}

/// To the right, by the low 6 bits of the count.
pub(crate) fn right(a: u64, count: u64) -> u64
    ensures { result ≡ a / 2 ^ (count % 64) }
{
    a >> (count % 64)
}

/// To the right with copies of the sign bit, by the low 6 bits of the count.
pub(crate) fn right_arithmetic(a: u64, count: u64) -> u64
    ensures { result ≡ shifted_arithmetic 64 a (count % 64) }
{
    if negative(a) {
        u64::MAX - ((u64::MAX - a) >> (count % 64))
    } else {
        a >> (count % 64)
    }
}

/// The low 32 bits to the left, by the low 5 bits of the count.
pub(crate) fn left_word(a: u64, count: u64) -> u64
    ensures { result ≡ word_result (a * 2 ^ (count % 32)) }
{
    word_of(a << (count % 32))
}

/// The low 32 bits to the right, by the low 5 bits of the count.
pub(crate) fn right_word(a: u64, count: u64) -> u64
    ensures { result ≡ word_result (a % 2 ^ 32 / 2 ^ (count % 32)) }
{
    extended(word(a) >> (count % 32))
}

/// The low 32 bits to the right with copies of their sign bit, by the low 5 bits of the count.
pub(crate) fn right_arithmetic_word(a: u64, count: u64) -> u64
    ensures { result ≡ word_result (shifted_arithmetic 32 (a % 2 ^ 32) (count % 32)) }
{
    extended(shifted_word(word(a), count % 32))
}

/// A word to the right with copies of its sign bit.
fn shifted_word(a: u32, count: u64) -> u32
    requires { count < 32 }
    ensures { result ≡ shifted_arithmetic 32 a count }
{
    if negative_word(a) {
        u32::MAX - ((u32::MAX - a) >> count)
    } else {
        a >> count
    }
}
