//! The nine kinds of whole numbers, their ranges, promotion and the common kind.
ghost use Rattle.std.specs.Prelude.{◌≡◌, ◌↔◌, ◌<◌, ◌≤◌, ◌^◌, IsTrue};
ghost use Rattle.ido_ints.specs.Kinds.{bytes_of, bits_of, is_signed, least_of, greatest_of, modulus_of, Holds, promoted, common_of};

/// A kind of whole numbers: an integer type of C (C11 6.2.5) at fixed widths.
#[derive(Clone, Copy, PartialEq, Eq, Debug)]
pub enum Kind {
    /// `char`: 8 bits, unsigned.
    Char,
    /// `unsigned char`: 8 bits.
    UnsignedChar,
    /// `signed char`: 8 bits.
    SignedChar,
    /// `short`: 16 bits.
    Short,
    /// `unsigned short`: 16 bits.
    UnsignedShort,
    /// `int`: 32 bits.
    Int,
    /// `unsigned int`: 32 bits.
    UnsignedInt,
    /// `long`: 64 bits.
    Long,
    /// `unsigned long`: 64 bits.
    UnsignedLong,
}

impl Kind {
    /// The kind's size in bytes: 1, 2, 4 or 8.
    pub fn bytes(self) -> u32
        ensures { result ≡ bytes_of self }
    {
        match self {
            Kind::Char | Kind::UnsignedChar | Kind::SignedChar => 1,
            Kind::Short | Kind::UnsignedShort => 2,
            Kind::Int | Kind::UnsignedInt => 4,
            Kind::Long | Kind::UnsignedLong => 8,
        }
    }

    /// The kind's width in bits, the sign among them: 8, 16, 32 or 64.
    pub fn bits(self) -> u32
        ensures { result ≡ bits_of self }
    {
        match self {
            Kind::Char | Kind::UnsignedChar | Kind::SignedChar => 8,
            Kind::Short | Kind::UnsignedShort => 16,
            Kind::Int | Kind::UnsignedInt => 32,
            Kind::Long | Kind::UnsignedLong => 64,
        }
    }

    /// How many numbers it holds: 2 to its width.
    pub fn modulus(self) -> u128
        ensures value { result ≡ modulus_of self }
        ensures positive { 0 < result }
        ensures at_most { result ≤ 2 ^ 64 }
    {
        match self {
            Kind::Char | Kind::UnsignedChar | Kind::SignedChar => 1 << 8,
            Kind::Short | Kind::UnsignedShort => 1 << 16,
            Kind::Int | Kind::UnsignedInt => 1 << 32,
            Kind::Long | Kind::UnsignedLong => 1 << 64,
        }
    }

    /// Whether it holds negative numbers. `char` does not (C11 6.2.5, paragraph 15).
    pub fn is_signed(self) -> bool
        ensures { result ≡ is_signed self }
    {
        match self {
            Kind::SignedChar | Kind::Short | Kind::Int | Kind::Long => true,
            Kind::Char
            | Kind::UnsignedChar
            | Kind::UnsignedShort
            | Kind::UnsignedInt
            | Kind::UnsignedLong => false,
        }
    }

    /// The least number that it holds.
    pub fn least(self) -> i128
        ensures { result ≡ least_of self }
    {
        match self {
            Kind::Char
            | Kind::UnsignedChar
            | Kind::UnsignedShort
            | Kind::UnsignedInt
            | Kind::UnsignedLong => 0,
            Kind::SignedChar => i128::from(i8::MIN),
            Kind::Short => i128::from(i16::MIN),
            Kind::Int => i128::from(i32::MIN),
            Kind::Long => i128::from(i64::MIN),
        }
    }

    /// The greatest number that it holds.
    pub fn greatest(self) -> i128
        ensures { result ≡ greatest_of self }
    {
        match self {
            Kind::Char | Kind::UnsignedChar => i128::from(u8::MAX),
            Kind::SignedChar => i128::from(i8::MAX),
            Kind::Short => i128::from(i16::MAX),
            Kind::UnsignedShort => i128::from(u16::MAX),
            Kind::Int => i128::from(i32::MAX),
            Kind::UnsignedInt => i128::from(u32::MAX),
            Kind::Long => i128::from(i64::MAX),
            Kind::UnsignedLong => i128::from(u64::MAX),
        }
    }

    /// Whether it holds the number.
    pub fn holds(self, number: i128) -> bool
        ensures { IsTrue result ↔ Holds self number }
    {
        self.least() <= number && number <= self.greatest()
    }
}

/// The kind in which an operand of kind `kind` is computed with: `int` in place of a narrower one
/// (C11 6.3.1.1).
pub fn promote(kind: Kind) -> Kind
    ensures { result ≡ promoted kind }
{
    match kind {
        Kind::UnsignedInt => Kind::UnsignedInt,
        Kind::Long => Kind::Long,
        Kind::UnsignedLong => Kind::UnsignedLong,
        _ => Kind::Int,
    }
}

/// The kind to which both operands of an arithmetic operator are converted
/// (C11 6.3.1.8, the usual arithmetic conversions).
pub fn common(first: Kind, second: Kind) -> Kind
    ensures { result ≡ common_of first second }
{
    let (first, second) = (promote(first), promote(second));
    // Of two promoted kinds the one that stands later is the common one.
    if second as u8 > first as u8 {
        second
    } else {
        first
    }
}
