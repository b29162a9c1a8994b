//! Numbers in two's complement.
ghost use Rattle.std.specs.Prelude.{◌≡◌, ◌+◌, ◌-◌, ◌%◌, ◌^◌, ◌<◌};
ghost use Rattle.rv64_isa.specs.Arithmetic.{is_negative, sign_extended, word_result, magnitude, with_sign, signed_less, flag};

/// The sign bit of 64.
pub(crate) const SIGN: u64 = 1 << 63;

/// The sign bit of 32.
pub(crate) const WORD_SIGN: u32 = 1 << 31;

/// The numbers of 32 bits lie below this.
pub(crate) const WORD: u64 = 1 << 32;

/// The low 32 bits.
pub(crate) fn word(n: u64) -> u32
    ensures { result ≡ n % 2 ^ 32 }
{
    (n % WORD) as u32
}

/// The word with its sign bit copied up to 64 bits.
pub(crate) fn extended(n: u32) -> u64
    ensures { result ≡ sign_extended 32 64 n }
{
    if n >= WORD_SIGN {
        n as u64 + 0xFFFF_FFFF_0000_0000
    } else {
        n as u64
    }
}

/// The number with its sign bit copied up to 128 bits.
pub(crate) fn extended_double(n: u64) -> u128
    ensures { result ≡ sign_extended 64 128 n }
{
    if n >= SIGN {
        n as u128 + 0xFFFF_FFFF_FFFF_FFFF_0000_0000_0000_0000
    } else {
        n as u128
    }
}

/// What the W forms leave: the low 32 bits, sign-extended.
pub(crate) fn word_of(n: u64) -> u64
    ensures { result ≡ word_result n }
{
    extended(word(n))
}

/// The number is negative.
pub(crate) fn negative(n: u64) -> bool
    ensures { result ≡ is_negative 64 n }
{
    n >= SIGN
}

/// The word is negative.
pub(crate) fn negative_word(n: u32) -> bool
    ensures { result ≡ is_negative 32 n }
{
    n >= WORD_SIGN
}

/// The number without its sign.
pub(crate) fn amount(n: u64) -> u64
    ensures { result ≡ magnitude 64 n }
{
    if n >= SIGN { u64::MAX - n + 1 } else { n }
}

/// The word without its sign.
pub(crate) fn amount_word(n: u32) -> u32
    ensures { result ≡ magnitude 32 n }
{
    if n >= WORD_SIGN { u32::MAX - n + 1 } else { n }
}

/// The number of this amount, negative or not.
pub(crate) fn signed(is_negative: bool, n: u64) -> u64
    ensures { result ≡ with_sign 64 is_negative n }
{
    if is_negative { 0u64.wrapping_sub(n) } else { n }
}

/// The word of this amount, negative or not.
pub(crate) fn signed_word(is_negative: bool, n: u32) -> u32
    ensures { result ≡ with_sign 32 is_negative n }
{
    if is_negative { 0u32.wrapping_sub(n) } else { n }
}

/// The order of signed numbers.
pub(crate) fn less(a: u64, b: u64) -> bool
    ensures { result ≡ signed_less a b }
{
    a.wrapping_add(SIGN) < b.wrapping_add(SIGN)
}

/// 1 or 0.
pub(crate) fn flag_of(is_set: bool) -> u64
    ensures { result ≡ flag is_set }
{
    if is_set { 1 } else { 0 }
}
