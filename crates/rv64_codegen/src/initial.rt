//! The bytes that the variables begin with.
ghost use Rattle.std.specs.Prelude.{IfOk, map};
ghost use Rattle.c_tree.specs.Programs.{variable_of};
ghost use Rattle.c_tree.specs.WellFormed.{shape_of, initial_numbers};
ghost use Rattle.memory_layout.specs.Variables.{AreCounted, AreInitial};

use c_tree::program::Variable;
use c_tree::shapes::shape;
use ido_base::memory::OutOfMemory;
use memory_layout::contents::push_variable;
use std::alloc::Global;

/// The bytes that the variables begin with, from the first variable's address on: each element's number at its place, little-endian,
/// and zeros everywhere else, up to the next multiple of 8.
pub(crate) fn initial_bytes(alloc: Global, variables: &[Variable]) -> Result<Vec<u8>, OutOfMemory>
    requires { AreCounted (map shape_of (map variable_of variables.now)) (map initial_numbers (map variable_of variables.now)) }
    ensures { IfOk result (λ r. AreInitial (map shape_of (map variable_of variables.now)) (map initial_numbers (map variable_of variables.now)) r.items) }
{
    let mut bytes = Vec::new(alloc);
    for variable in variables {
        push_variable(&mut bytes, shape(variable), &variable.initial)?;
    }
    let end = usize::next_multiple_of(bytes.len(), 8);
    bytes.resize(end, 0)?;
    Ok(bytes)
}
