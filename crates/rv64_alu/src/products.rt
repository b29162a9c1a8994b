//! The upper halves of products.
ghost use Rattle.std.specs.Prelude.{◌≡◌, ◌*◌, ◌/◌, ◌%◌, ◌^◌};
ghost use Rattle.rv64_isa.specs.Arithmetic.{sign_extended};

use crate::signs::extended_double;

/// Of 128 bits the upper 64.
fn upper_half(n: u128) -> u64
    ensures { result ≡ n / 2 ^ 64 }
{
    (n >> 64) as u64
}

/// The upper half of the product of two signed numbers.
pub(crate) fn upper_signed(a: u64, b: u64) -> u64
    ensures { result ≡ sign_extended 64 128 a * sign_extended 64 128 b % 2 ^ 128 / 2 ^ 64 }
{
    upper_half(extended_double(a).wrapping_mul(extended_double(b)))
}

/// The upper half of the product of a signed and an unsigned number.
pub(crate) fn upper_mixed(a: u64, b: u64) -> u64
    ensures { result ≡ sign_extended 64 128 a * b % 2 ^ 128 / 2 ^ 64 }
{
    upper_half(extended_double(a).wrapping_mul(b as u128))
}

/// The upper half of the product of two unsigned numbers.
pub(crate) fn upper_unsigned(a: u64, b: u64) -> u64
    ensures { result ≡ a * b / 2 ^ 64 }
{
    upper_half(a as u128 * b as u128)
}
