//! The bytes that variables begin with.
ghost use Rattle.std.specs.Prelude.{◌≡◌, ◌≤◌, ◌++◌, OnOk, length, take, IsTrue};
ghost use Rattle.std.specs.Int.{w64, to_le_bytes};
ghost use Rattle.memory_layout.specs.Variables.{bits_of, is_size};
ghost use Rattle.memory_layout.specs.links.Bytes.{variable_bytes};

use ido_base::location::Shape;
use ido_base::memory::OutOfMemory;

/// Appends the lowest bytes of a number, so many, the lowest first.
fn push_number(bytes: &mut Vec<u8>, number: i128, count: usize) -> Result<(), OutOfMemory>
    requires { count ≤ 8 }
    ensures { OnOk result (bytes.new.items ≡ bytes.old.items ++ take count (to_le_bytes w64 (bits_of number))) }
{
    let all = number.to_le_bytes();
    bytes.extend_from_slice(&all[..count])?;
    Ok(())
}

/// Appends the bytes of a variable with these numbers, after zeros up to the next multiple of its element's size.
pub fn push_variable(bytes: &mut Vec<u8>, shape: Shape, numbers: &[i128]) -> Result<(), OutOfMemory>
    requires { IsTrue (is_size shape.bytes) }
    ensures { OnOk result (bytes.new.items ≡ bytes.old.items ++ variable_bytes (length bytes.old.items) shape numbers.now) }
{
    let size = shape.bytes as usize;
    let first = usize::next_multiple_of(bytes.len(), size);
    bytes.resize(first, 0)?;
    for number in numbers {
        push_number(bytes, *number, size)?;
    }
    Ok(())
}
