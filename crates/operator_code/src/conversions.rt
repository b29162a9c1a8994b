//! Copies and conversions.
ghost use Rattle.std.specs.Prelude.{◌≡◌, ◌↔◌, ◌<◌, ◌^◌, IsTrue};
ghost use Rattle.operator_code.specs.ComputingCode.{IsCopy, IsConversion, KeepsForm};
ghost use Rattle.operator_code.specs.Sequences.{listed};
ghost use Rattle.operator_code.specs.links.OperatorInstructions.{keeps};
ghost use Rattle.operator_code.specs.links.InstructionLists.{extension, up_and_back};

use crate::instructions::{immediate, shift};
use crate::sequences::Sequence;
use ido_ints::Kind;
use rv64_isa::field::Register;
use rv64_isa::instr::{ImmediateOperation, ShiftOperation};

/// `mv rd, rs`: nothing where they are one register.
pub fn copy(rd: Register, rs: Register) -> Sequence
    requires { 0 < rd }
    ensures { IsCopy rd rs (listed result) }
{
    if rd == rs {
        Sequence::Empty
    } else {
        Sequence::One(immediate(ImmediateOperation::Addi, rd, rs, 0))
    }
}

/// Whether the register form of each number of the kind `from` is that of its conversion to the kind `to`.
pub fn keeps_form(from: Kind, to: Kind) -> bool
    ensures { IsTrue result ↔ KeepsForm from to }
{
    is_kept(from, to)
}

fn is_kept(from: Kind, to: Kind) -> bool
    ensures { result ≡ keeps from to }
{
    match to {
        Kind::Char | Kind::UnsignedChar => matches!(from, Kind::Char | Kind::UnsignedChar),
        Kind::SignedChar => matches!(from, Kind::SignedChar),
        Kind::Short => matches!(
            from,
            Kind::Char | Kind::UnsignedChar | Kind::SignedChar | Kind::Short
        ),
        Kind::UnsignedShort => {
            matches!(from, Kind::Char | Kind::UnsignedChar | Kind::UnsignedShort)
        }
        Kind::Int | Kind::UnsignedInt => !matches!(from, Kind::Long | Kind::UnsignedLong),
        Kind::Long | Kind::UnsignedLong => !matches!(from, Kind::UnsignedInt),
    }
}

/// The value of kind `from` in `rs`, converted to the kind `to`, into `rd`. Nothing where the form is kept and `rd`
/// is `rs`.
pub fn convert(from: Kind, to: Kind, rd: Register, rs: Register) -> Sequence
    requires { 0 < rd }
    ensures { IsConversion from to rd rs (listed result) }
{
    if is_kept(from, to) {
        copy(rd, rs)
    } else {
        extend(to, rd, rs)
    }
}

/// The low bits of `rs`, as many as the kind has, with zeros or copies of the sign above them; for one of 64 bits, the
/// low 32 with zeros.
fn extend(to: Kind, rd: Register, rs: Register) -> Sequence
    ensures { listed result ≡ extension to rd rs }
{
    match to {
        Kind::Char | Kind::UnsignedChar => {
            Sequence::One(immediate(ImmediateOperation::Andi, rd, rs, 0xFF))
        }
        Kind::SignedChar => shifts(ShiftOperation::Srai, rd, rs, 56),
        Kind::Short => shifts(ShiftOperation::Srai, rd, rs, 48),
        Kind::UnsignedShort => shifts(ShiftOperation::Srli, rd, rs, 48),
        Kind::Int | Kind::UnsignedInt => {
            Sequence::One(immediate(ImmediateOperation::Addiw, rd, rs, 0))
        }
        Kind::Long | Kind::UnsignedLong => shifts(ShiftOperation::Srli, rd, rs, 32),
    }
}

/// A shift up by a count, and back.
fn shifts(back: ShiftOperation, rd: Register, rs: Register, count: u8) -> Sequence
    requires { count < 2 ^ 6 }
    ensures { listed result ≡ up_and_back back count rd rs }
{
    Sequence::Two {
        first: shift(ShiftOperation::Slli, rd, rs, count),
        second: shift(back, rd, rd, count),
    }
}
