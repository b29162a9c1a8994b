//! What guards variables, and the names of a thread's locks.
ghost use Rattle.std.specs.Prelude.{◌≡◌, map, IfOk};
ghost use Rattle.c_tree.specs.Exprs.{lock_ref_of, placed_ref_of};
ghost use Rattle.c_tree.specs.Programs as program;
ghost use Rattle.c_tree.specs.Programs.{variable_of};
ghost use Rattle.c_tree.specs.LockDiscipline.{variable_guard};
ghost use Rattle.flow_graph.specs.HeldKeys.{key_number};

use c_tree::expr::{LockRef, PlacedRef};
use c_tree::lock_names::{number_in, variable_guard};
use c_tree::program::{Guard, Variable};
use ido_base::memory::OutOfMemory;

/// What guards each variable, and the names of a thread's locks.
#[derive(Clone, Copy, Drop)]
pub(crate) struct Table<'a> {
    pub variables: &'a [Variable],
    pub names: &'a [LockRef<'a>],
}

/// The number of the name whose lock guards the element at the index, if each element has a lock of its own and the name is there.
fn key_number(
    names: &[LockRef<'_>],
    guard: Guard,
    index: PlacedRef<'_>,
) -> Result<Option<u32>, OutOfMemory>
    ensures { IfOk result (λ key. key ≡ key_number (map lock_ref_of names.now) (program.guard_of guard) (placed_ref_of index.entry)) }
{
    match guard {
        Guard::By { .. } => Ok(None),
        Guard::Each { first } => {
            let lock = LockRef {
                mutex: first,
                key: Some(index),
            };
            let number = number_in(names, lock);
            if number < names.len() {
                let key = u32::try_from(number).map_err(|_| OutOfMemory)?;
                Ok(Some(key))
            } else {
                Ok(None)
            }
        }
    }
}

/// The key of the element of a variable at the index.
pub(crate) fn key(
    table: &Table<'_>,
    variable: u32,
    index: PlacedRef<'_>,
) -> Result<Option<u32>, OutOfMemory>
    ensures { IfOk result (λ key. key ≡ key_number (map lock_ref_of table.now.names.now)
        (variable_guard (map variable_of table.now.variables.now) variable) (placed_ref_of index.entry)) }
{
    key_number(
        table.names,
        variable_guard(table.variables, variable),
        index,
    )
}
