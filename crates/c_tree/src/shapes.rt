//! Shapes of variables.
ghost use Rattle.std.specs.Prelude.{◌≡◌, IfOk, map};
ghost use Rattle.c_tree.specs.Programs.{variable_of};
ghost use Rattle.c_tree.specs.WellFormed.{shape_of};

use crate::program::Variable;
use ido_base::location::Shape;
use ido_base::memory::OutOfMemory;
use std::alloc::Global;

/// How a variable stands in memory: one that is no array has one element.
pub fn shape(variable: &Variable) -> Shape
    ensures { result ≡ shape_of (variable_of variable.now) }
{
    Shape {
        bytes: variable.kind.bytes(),
        length: variable.length.unwrap_or(1),
    }
}

/// The shapes of variables, in order of declaration.
pub fn shapes(alloc: Global, variables: &[Variable]) -> Result<Vec<Shape>, OutOfMemory>
    ensures { IfOk result (λ r. r.items ≡ map shape_of (map variable_of variables.now)) }
{
    let mut shapes = Vec::new(alloc);
    for variable in variables {
        shapes.push(shape(variable))?;
    }
    Ok(shapes)
}
