//! Numbers of fewer bits, with their sign bit copied up to 64.
ghost use Rattle.std.specs.Prelude.{◌≡◌, ◌*◌, ◌^◌, ◌<◌};
ghost use Rattle.rv64_isa.specs.Arithmetic.{sign_extended};
ghost use Rattle.rv64_isa.specs.Rows.{upper, load_bytes, load_signed, load_result};

use rv64_isa::field::{BranchOffset, Immediate, JumpOffset, UpperImmediate};
use rv64_isa::instr::LoadKind;

fn extended_byte(n: u64) -> u64
    requires { n < 2 ^ 8 }
    ensures { result ≡ sign_extended 8 64 n }
{
    if n >= 0x80 {
        n + 0xFFFF_FFFF_FFFF_FF00
    } else {
        n
    }
}

fn extended_half(n: u64) -> u64
    requires { n < 2 ^ 16 }
    ensures { result ≡ sign_extended 16 64 n }
{
    if n >= 0x8000 {
        n + 0xFFFF_FFFF_FFFF_0000
    } else {
        n
    }
}

fn extended_word(n: u64) -> u64
    requires { n < 2 ^ 32 }
    ensures { result ≡ sign_extended 32 64 n }
{
    if n >= 0x8000_0000 {
        n + 0xFFFF_FFFF_0000_0000
    } else {
        n
    }
}

/// A displacement of the formats I and S.
pub(crate) fn of_immediate(immediate: Immediate) -> u64
    ensures { result ≡ sign_extended 12 64 immediate }
{
    let n = u64::from(immediate.bits());
    if n >= 0x800 {
        n + 0xFFFF_FFFF_FFFF_F000
    } else {
        n
    }
}

/// A displacement of the format B.
pub(crate) fn of_branch(offset: BranchOffset) -> u64
    ensures { result ≡ sign_extended 13 64 offset }
{
    let n = u64::from(offset.bits());
    if n >= 0x1000 {
        n + 0xFFFF_FFFF_FFFF_E000
    } else {
        n
    }
}

/// A displacement of the format J.
pub(crate) fn of_jump(offset: JumpOffset) -> u64
    ensures { result ≡ sign_extended 21 64 offset }
{
    let n = u64::from(offset.bits());
    if n >= 0x10_0000 {
        n + 0xFFFF_FFFF_FFE0_0000
    } else {
        n
    }
}

/// The immediate of the format U in its place.
pub(crate) fn of_upper(immediate: UpperImmediate) -> u64
    ensures { result ≡ upper immediate }
{
    extended_word(u64::from(immediate.bits()) * 4096)
}

/// What a load leaves in its register, of the bytes that it read.
#[inline(always)]
pub(crate) fn loaded(kind: LoadKind, value: u64) -> u64
    requires { value < 2 ^ (8 * load_bytes kind) }
    ensures { result ≡ load_result (load_bytes kind) (load_signed kind) value }
{
    match kind {
        LoadKind::Lb => extended_byte(value),
        LoadKind::Lh => extended_half(value),
        LoadKind::Lw => extended_word(value),
        LoadKind::Ld | LoadKind::Lbu | LoadKind::Lhu | LoadKind::Lwu => value,
    }
}
