//! Lengths of arrays.
ghost use Rattle.std.specs.Prelude.{◌≡◌};
ghost use Rattle.std.specs.Option.{option_map};
ghost use Rattle.c_tree.specs.Names.{element_count, length_number};
ghost use Rattle.c_tree.specs.Views as v;

use c_tree::tree::Length;

/// The number that is written.
pub fn length_number(length: &Length) -> u64
    ensures { result ≡ length_number (v.length_of length.now) }
{
    length.value.number().unsigned_abs() as u64
}

/// How many elements an array has.
pub fn length_of(length: &Option<Length>) -> Option<u64>
    ensures { result ≡ option_map length_number (option_map v.length_of length.now) }
{
    match length {
        None => None,
        Some(length) => Some(length_number(length)),
    }
}

/// How many elements there are; one that is no array has one.
pub fn element_count(length: &Option<Length>) -> u64
    ensures { result ≡ element_count (option_map v.length_of length.now) }
{
    match length {
        None => 1,
        Some(length) => length_number(length),
    }
}
