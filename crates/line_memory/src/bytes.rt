//! Parts of words, and where addresses lie.
ghost use Rattle.std.specs.Prelude.{◌≡◌, ◌+◌, ◌*◌, ◌%◌, ◌^◌, ◌<◌, ◌≤◌, nat_le, ◌&&◌, IsTrue};
ghost use Rattle.ido_base.specs.Words.{part as part_of, with_part as with_part_of};
ghost use Rattle.ido_base.specs.Layout.{variables_base, byte_number as byte_number_of};
ghost use Rattle.line_memory.specs.Access.{is_width};

use ido_base::limits::{LINE_BYTES, VARIABLE_LINES};
use log_schemes::addresses::LOGS_BASE;
use memory_layout::variables::VARIABLES_BASE;

/// Bytes of the variables' lines.
pub const VARIABLE_BYTES: u64 = LINE_BYTES * VARIABLE_LINES;

/// The low bytes of a value, 1, 2, 4 or 8 of them.
pub fn low_bytes(value: u64, count: u32) -> u64
    requires { IsTrue (is_width count) }
    ensures { result ≡ value % 2 ^ (8 * count) }
{
    match count {
        1 => value % 0x100,
        2 => value % 0x1_0000,
        4 => value % 0x1_0000_0000,
        _ => value,
    }
}

/// The bytes of a value from the given one on.
pub fn part(value: u64, byte: u32, count: u32) -> u64
    requires byte { byte < 8 }
    requires width { IsTrue (is_width count) }
    ensures { result ≡ part_of value byte count }
{
    low_bytes(value >> (8 * byte), count)
}

/// The value with these bytes of it replaced by the low ones of another.
pub fn with_part(value: u64, byte: u32, count: u32, new: u64) -> u64
    requires fits { byte + count ≤ 8 }
    requires width { IsTrue (is_width count) }
    ensures { result ≡ with_part_of value byte count new }
{
    if count == 8 {
        return new;
    }
    let shift = 8 * byte;
    let old = part(value, byte, count);
    value - (old << shift) + (low_bytes(new, count) << shift)
}

/// The number of the byte at an address, counted over all lines.
pub fn byte_number(address: u64) -> u64
    requires { variables_base ≤ address }
    ensures { result ≡ byte_number_of address }
{
    if address < LOGS_BASE {
        address - VARIABLES_BASE
    } else {
        VARIABLE_BYTES + (address - LOGS_BASE)
    }
}

/// All so many bytes from the address on lie among the size bytes from the base on.
pub fn is_within(address: u64, count: u64, base: u64, size: u64) -> bool
    requires { base + size < 2 ^ 64 }
    ensures { result ≡ (nat_le base address && nat_le (address + count) (base + size)) }
{
    base <= address && count <= size && address - base <= size - count
}
