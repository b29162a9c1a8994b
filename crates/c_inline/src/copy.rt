//! Copies of what the flat form has from the program.
ghost use Rattle.std.specs.Prelude.{◌≡◌, map, IfOk};
ghost use Rattle.c_tree.specs.Views.{name_of};
ghost use Rattle.c_tree.specs.Programs.{mutex_of, variable_of};

use c_tree::program::{Mutex, Variable};
use c_tree::tree::Name;
use std::alloc::{AllocError, Global};

/// A copy of a name.
pub fn copy_name(name: &Name) -> Result<Name, AllocError>
    ensures { IfOk result (λ copy. name_of copy ≡ name_of name.now) }
{
    Ok(Name {
        text: name.text.clone()?,
        place: name.place,
    })
}

/// A copy of a mutex.
fn copy_mutex(mutex: &Mutex) -> Result<Mutex, AllocError>
    ensures { IfOk result (λ copy. mutex_of copy ≡ mutex_of mutex.now) }
{
    Ok(Mutex {
        name: copy_name(&mutex.name)?,
        length: mutex.length,
    })
}

/// Copies of mutexes.
pub fn copy_mutexes(alloc: Global, mutexes: &[Mutex]) -> Result<Vec<Mutex>, AllocError>
    ensures { IfOk result (λ copies. map mutex_of copies.items ≡ map mutex_of mutexes.now) }
{
    let mut copies = Vec::with_capacity(alloc, mutexes.len())?;
    for mutex in mutexes {
        copies.push(copy_mutex(mutex)?)?;
    }
    Ok(copies)
}

/// A copy of a variable.
fn copy_variable(variable: &Variable) -> Result<Variable, AllocError>
    ensures { IfOk result (λ copy. variable_of copy ≡ variable_of variable.now) }
{
    Ok(Variable {
        name: copy_name(&variable.name)?,
        guard: variable.guard,
        kind: variable.kind,
        refers: variable.refers,
        length: variable.length,
        initial: variable.initial.clone()?,
    })
}

/// Copies of variables.
pub fn copy_variables(alloc: Global, variables: &[Variable]) -> Result<Vec<Variable>, AllocError>
    ensures { IfOk result (λ copies. map variable_of copies.items ≡ map variable_of variables.now) }
{
    let mut copies = Vec::with_capacity(alloc, variables.len())?;
    for variable in variables {
        copies.push(copy_variable(variable)?)?;
    }
    Ok(copies)
}
