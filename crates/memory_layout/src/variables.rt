//! Addresses of the variables and of their elements.
ghost use Rattle.std.specs.Prelude.{◌≡◌, ◌+◌, ◌^◌, ◌<◌, ◌≤◌, length, IfOk, IsTrue};
ghost use Rattle.ido_base.specs.Layout.{variable_at, end_from, aligned_up};
ghost use Rattle.ido_base.specs.declared.limits.TheConstants.{MOST_VARIABLE_BYTES};
ghost use Rattle.memory_layout.specs.Variables.{AreAddresses, HaveRoom, are_sizes, elements_of};

use ido_base::location::Shape;
use ido_base::memory::OutOfMemory;
use std::alloc::Global;

/// The address of the first variable.
pub const VARIABLES_BASE: u64 = 0x1000_0000;

/// The least multiple of an element's size from `offset` on.
fn aligned_up(offset: u64, size: u64) -> u64
    requires size { 0 < size }
    requires fits { offset + size < 2 ^ 64 }
    ensures { result ≡ aligned_up offset size }
{
    (offset + size - 1) / size * size
}

/// The address of an element of a variable, where these are the shapes of all variables in order of declaration:
/// each stands at the next address that is aligned to its element's size.
pub fn var_at(shapes: &[Shape], variable: usize, element: u32) -> u64
    requires sizes { IsTrue (are_sizes shapes.now) }
    requires within { end_from 0 shapes.now ≤ MOST_VARIABLE_BYTES }
    requires variable { variable < length shapes.now }
    requires element { element < elements_of shapes.now variable }
    ensures { result ≡ variable_at shapes.now variable element }
{
    let mut end = 0;
    let earlier = &shapes[..variable];
    for shape in earlier {
        let bytes = u64::from(shape.bytes);
        end = aligned_up(end, bytes) + bytes * u64::from(shape.length);
    }
    let bytes = u64::from(shapes[variable].bytes);
    VARIABLES_BASE + aligned_up(end, bytes) + bytes * u64::from(element)
}

/// The address of each variable's first element, in order of declaration.
pub fn addresses(alloc: Global, shapes: &[Shape]) -> Result<Vec<u32>, OutOfMemory>
    requires sizes { IsTrue (are_sizes shapes.now) }
    requires room { HaveRoom shapes.now }
    ensures { IfOk result (λ r. AreAddresses shapes.now r.items) }
{
    let mut addresses = Vec::new(alloc);
    let mut end = 0;
    for shape in shapes {
        let first = u32::next_multiple_of(end, shape.bytes);
        addresses.push(VARIABLES_BASE as u32 + first)?;
        end = first + shape.bytes * shape.length;
    }
    Ok(addresses)
}
