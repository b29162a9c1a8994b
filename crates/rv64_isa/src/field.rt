//! The fields of an instruction, each a type that holds only what an instruction can. Contracts see the
//! number that the field has in the code word.
ghost use Rattle.std.specs.Prelude.{◌≡◌, ◌<◌, ◌%◌, ◌^◌, ℕ, ◌↔◌, pos, negsuc, ◌≤ℤ◌, ◌<ℤ◌, IsSome, IfSome};
ghost use Rattle.rv64_isa.specs.Signed.{twos_complement};

use std::marker::Model;

/// An integer register, x0 to x31.
#[derive(Clone, Copy, Debug, PartialEq, Eq, Drop)]
pub struct Register {
    number: u8,
}

impl Model for Register {
    ghost Value = { ℕ };

    ghost view = { λ r. r.number };

    ghost invariant = { λ r. r.number < 32 };

    ghost inverse = { λ n. record { number = n } };
}

impl Register {
    pub const X0: Register = Register { number: 0 };

    pub const X1: Register = Register { number: 1 };

    pub const X2: Register = Register { number: 2 };

    pub const X3: Register = Register { number: 3 };

    pub const X4: Register = Register { number: 4 };

    pub const X5: Register = Register { number: 5 };

    pub const X6: Register = Register { number: 6 };

    pub const X7: Register = Register { number: 7 };

    pub const X8: Register = Register { number: 8 };

    pub const X9: Register = Register { number: 9 };

    pub const X10: Register = Register { number: 10 };

    pub const X11: Register = Register { number: 11 };

    pub const X12: Register = Register { number: 12 };

    pub const X13: Register = Register { number: 13 };

    pub const X14: Register = Register { number: 14 };

    pub const X15: Register = Register { number: 15 };

    pub const X16: Register = Register { number: 16 };

    pub const X17: Register = Register { number: 17 };

    pub const X18: Register = Register { number: 18 };

    pub const X19: Register = Register { number: 19 };

    pub const X20: Register = Register { number: 20 };

    pub const X21: Register = Register { number: 21 };

    pub const X22: Register = Register { number: 22 };

    pub const X23: Register = Register { number: 23 };

    pub const X24: Register = Register { number: 24 };

    pub const X25: Register = Register { number: 25 };

    pub const X26: Register = Register { number: 26 };

    pub const X27: Register = Register { number: 27 };

    pub const X28: Register = Register { number: 28 };

    pub const X29: Register = Register { number: 29 };

    pub const X30: Register = Register { number: 30 };

    pub const X31: Register = Register { number: 31 };

    /// The register of this number; none where it isn't below 32.
    pub fn new(number: u8) -> Option<Self>
        ensures some { IsSome result ↔ (number < 32) }
        ensures value { IfSome result (λ r. r ≡ number) }
    {
        if number < 32 {
            Some(Register { number })
        } else {
            None
        }
    }

    /// The register's number.
    pub fn number(self) -> u8
        ensures value { result ≡ self }
        ensures range { self < 32 }
    {
        self.number
    }
}

// Each named register is the one of its number.
const _: () = prove!(Register::X0.number == 0);

const _: () = prove!(Register::X1.number == 1);

const _: () = prove!(Register::X2.number == 2);

const _: () = prove!(Register::X3.number == 3);

const _: () = prove!(Register::X4.number == 4);

const _: () = prove!(Register::X5.number == 5);

const _: () = prove!(Register::X6.number == 6);

const _: () = prove!(Register::X7.number == 7);

const _: () = prove!(Register::X8.number == 8);

const _: () = prove!(Register::X9.number == 9);

const _: () = prove!(Register::X10.number == 10);

const _: () = prove!(Register::X11.number == 11);

const _: () = prove!(Register::X12.number == 12);

const _: () = prove!(Register::X13.number == 13);

const _: () = prove!(Register::X14.number == 14);

const _: () = prove!(Register::X15.number == 15);

const _: () = prove!(Register::X16.number == 16);

const _: () = prove!(Register::X17.number == 17);

const _: () = prove!(Register::X18.number == 18);

const _: () = prove!(Register::X19.number == 19);

const _: () = prove!(Register::X20.number == 20);

const _: () = prove!(Register::X21.number == 21);

const _: () = prove!(Register::X22.number == 22);

const _: () = prove!(Register::X23.number == 23);

const _: () = prove!(Register::X24.number == 24);

const _: () = prove!(Register::X25.number == 25);

const _: () = prove!(Register::X26.number == 26);

const _: () = prove!(Register::X27.number == 27);

const _: () = prove!(Register::X28.number == 28);

const _: () = prove!(Register::X29.number == 29);

const _: () = prove!(Register::X30.number == 30);

const _: () = prove!(Register::X31.number == 31);

/// A 12-bit immediate of the formats I and S, in two's complement: 0 to 4095 stand for 0 to 2047 and
/// -2048 to -1.
#[derive(Clone, Copy, Debug, PartialEq, Eq, Drop)]
pub struct Immediate {
    bits: u16,
}

impl Model for Immediate {
    ghost Value = { ℕ };

    ghost view = { λ i. i.bits };

    ghost invariant = { λ i. i.bits < 2 ^ 12 };

    ghost inverse = { λ n. record { bits = n } };
}

impl Immediate {
    pub const ZERO: Immediate = Immediate { bits: 0 };

    /// The field of these bits; none where they aren't below 2^12.
    pub fn new(bits: u16) -> Option<Self>
        ensures some { IsSome result ↔ (bits < 2 ^ 12) }
        ensures value { IfSome result (λ i. i ≡ bits) }
    {
        if bits < 1 << 12 {
            Some(Immediate { bits })
        } else {
            None
        }
    }

    /// The field of this number; none where it isn't in -2^11 .. 2^11 - 1.
    pub fn of_signed(value: i16) -> Option<Self>
        ensures some { IsSome result ↔ ((negsuc 2047 ≤ℤ value) × (value <ℤ pos 2048)) }
        ensures value { IfSome result (λ i. i ≡ twos_complement 12 value) }
    {
        if value < -0x800 || value >= 0x800 {
            None
        } else if value < 0 {
            Immediate::new((value + 0x1000) as u16)
        } else {
            Immediate::new(value as u16)
        }
    }

    /// The bits of the field.
    pub fn bits(self) -> u16
        ensures value { result ≡ self }
        ensures range { self < 2 ^ 12 }
    {
        self.bits
    }
}

const _: () = prove!(Immediate::ZERO.bits == 0);

/// A 20-bit immediate of the format U, the upper 20 of 32 bits.
#[derive(Clone, Copy, Debug, PartialEq, Eq, Drop)]
pub struct UpperImmediate {
    bits: u32,
}

impl Model for UpperImmediate {
    ghost Value = { ℕ };

    ghost view = { λ i. i.bits };

    ghost invariant = { λ i. i.bits < 2 ^ 20 };

    ghost inverse = { λ n. record { bits = n } };
}

impl UpperImmediate {
    /// The field of these bits; none where they aren't below 2^20.
    pub fn new(bits: u32) -> Option<Self>
        ensures some { IsSome result ↔ (bits < 2 ^ 20) }
        ensures value { IfSome result (λ i. i ≡ bits) }
    {
        if bits < 1 << 20 {
            Some(UpperImmediate { bits })
        } else {
            None
        }
    }

    /// The field of this number; none where it isn't in -2^19 .. 2^19 - 1.
    pub fn of_signed(value: i32) -> Option<Self>
        ensures some { IsSome result ↔ ((negsuc 524287 ≤ℤ value) × (value <ℤ pos 524288)) }
        ensures value { IfSome result (λ i. i ≡ twos_complement 20 value) }
    {
        if value < -0x80000 || value >= 0x80000 {
            None
        } else if value < 0 {
            UpperImmediate::new((value + 0x100000) as u32)
        } else {
            UpperImmediate::new(value as u32)
        }
    }

    /// The bits of the field.
    pub fn bits(self) -> u32
        ensures value { result ≡ self }
        ensures range { self < 2 ^ 20 }
    {
        self.bits
    }
}

/// A 13-bit offset of the format B, in two's complement and even.
#[derive(Clone, Copy, Debug, PartialEq, Eq, Drop)]
pub struct BranchOffset {
    bits: u16,
}

impl Model for BranchOffset {
    ghost Value = { ℕ };

    ghost view = { λ i. i.bits };

    ghost invariant = { λ i. (i.bits < 2 ^ 13) × (i.bits % 2 ≡ 0) };

    ghost inverse = { λ n. record { bits = n } };
}

impl BranchOffset {
    /// The field of these bits; none where they aren't below 2^13 and even.
    pub fn new(bits: u16) -> Option<Self>
        ensures some { IsSome result ↔ ((bits < 2 ^ 13) × (bits % 2 ≡ 0)) }
        ensures value { IfSome result (λ i. i ≡ bits) }
    {
        if bits < 1 << 13 && bits % 2 == 0 {
            Some(BranchOffset { bits })
        } else {
            None
        }
    }

    /// The field of this number; none where it isn't in -2^12 .. 2^12 - 1 or is odd.
    pub fn of_signed(value: i16) -> Option<Self>
        ensures some { IsSome result ↔ ((negsuc 4095 ≤ℤ value) × (value <ℤ pos 4096) × (twos_complement 13 value % 2 ≡ 0)) }
        ensures value { IfSome result (λ i. i ≡ twos_complement 13 value) }
    {
        if value < -0x1000 || value >= 0x1000 {
            None
        } else if value < 0 {
            BranchOffset::new((value + 0x2000) as u16)
        } else {
            BranchOffset::new(value as u16)
        }
    }

    /// The bits of the field.
    pub fn bits(self) -> u16
        ensures value { result ≡ self }
        ensures range { self < 2 ^ 13 }
        ensures even { self % 2 ≡ 0 }
    {
        self.bits
    }
}

/// A 21-bit offset of the format J, in two's complement and even.
#[derive(Clone, Copy, Debug, PartialEq, Eq, Drop)]
pub struct JumpOffset {
    bits: u32,
}

impl Model for JumpOffset {
    ghost Value = { ℕ };

    ghost view = { λ i. i.bits };

    ghost invariant = { λ i. (i.bits < 2 ^ 21) × (i.bits % 2 ≡ 0) };

    ghost inverse = { λ n. record { bits = n } };
}

impl JumpOffset {
    /// The field of these bits; none where they aren't below 2^21 and even.
    pub fn new(bits: u32) -> Option<Self>
        ensures some { IsSome result ↔ ((bits < 2 ^ 21) × (bits % 2 ≡ 0)) }
        ensures value { IfSome result (λ i. i ≡ bits) }
    {
        if bits < 1 << 21 && bits % 2 == 0 {
            Some(JumpOffset { bits })
        } else {
            None
        }
    }

    /// The field of this number; none where it isn't in -2^20 .. 2^20 - 1 or is odd.
    pub fn of_signed(value: i32) -> Option<Self>
        ensures some { IsSome result ↔ ((negsuc 1048575 ≤ℤ value) × (value <ℤ pos 1048576) × (twos_complement 21 value % 2 ≡ 0)) }
        ensures value { IfSome result (λ i. i ≡ twos_complement 21 value) }
    {
        if value < -0x100000 || value >= 0x100000 {
            None
        } else if value < 0 {
            JumpOffset::new((value + 0x200000) as u32)
        } else {
            JumpOffset::new(value as u32)
        }
    }

    /// The bits of the field.
    pub fn bits(self) -> u32
        ensures value { result ≡ self }
        ensures range { self < 2 ^ 21 }
        ensures even { self % 2 ≡ 0 }
    {
        self.bits
    }
}

/// A shift count of a 64-bit shift, 0 to 63.
#[derive(Clone, Copy, Debug, PartialEq, Eq, Drop)]
pub struct ShiftCount {
    bits: u8,
}

impl Model for ShiftCount {
    ghost Value = { ℕ };

    ghost view = { λ i. i.bits };

    ghost invariant = { λ i. i.bits < 2 ^ 6 };

    ghost inverse = { λ n. record { bits = n } };
}

impl ShiftCount {
    /// The field of these bits; none where they aren't below 64.
    pub fn new(bits: u8) -> Option<Self>
        ensures some { IsSome result ↔ (bits < 2 ^ 6) }
        ensures value { IfSome result (λ i. i ≡ bits) }
    {
        if bits < 1 << 6 {
            Some(ShiftCount { bits })
        } else {
            None
        }
    }

    /// The bits of the field.
    pub fn bits(self) -> u8
        ensures value { result ≡ self }
        ensures range { self < 2 ^ 6 }
    {
        self.bits
    }
}

/// A shift count of a 32-bit shift, 0 to 31.
#[derive(Clone, Copy, Debug, PartialEq, Eq, Drop)]
pub struct WordShiftCount {
    bits: u8,
}

impl Model for WordShiftCount {
    ghost Value = { ℕ };

    ghost view = { λ i. i.bits };

    ghost invariant = { λ i. i.bits < 2 ^ 5 };

    ghost inverse = { λ n. record { bits = n } };
}

impl WordShiftCount {
    /// The field of these bits; none where they aren't below 32.
    pub fn new(bits: u8) -> Option<Self>
        ensures some { IsSome result ↔ (bits < 2 ^ 5) }
        ensures value { IfSome result (λ i. i ≡ bits) }
    {
        if bits < 1 << 5 {
            Some(WordShiftCount { bits })
        } else {
            None
        }
    }

    /// The bits of the field.
    pub fn bits(self) -> u8
        ensures value { result ≡ self }
        ensures range { self < 2 ^ 5 }
    {
        self.bits
    }
}
