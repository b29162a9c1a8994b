//! Addresses of a program's variables, and numbers out of their words.
ghost use Rattle.std.specs.Prelude.{◌≡◌, ◌<◌, IfOk, map};
ghost use Rattle.c_tree.specs.Programs.{variable_of};
ghost use Rattle.c_tree.specs.WellFormed.{shape_of};
ghost use Rattle.memory_layout.specs.Variables.{AreAddresses, HaveRoom};
ghost use Rattle.recovery_semantics.specs.Elements.{number_in};

use c_tree::program::Variable;
use c_tree::shapes::shapes;
use ido_base::memory::OutOfMemory;
use ido_ints::{Kind, Value};
use memory_layout::variables;
use std::alloc::Global;

/// The address of each variable's first element, in order of declaration.
pub fn addresses(alloc: Global, variables: &[Variable]) -> Result<Vec<u32>, OutOfMemory>
    requires { HaveRoom (map shape_of (map variable_of variables.now)) }
    ensures { IfOk result (λ r. AreAddresses (map shape_of (map variable_of variables.now)) r.items) }
{
    let shapes = shapes(alloc, variables)?;
    variables::addresses(alloc, &shapes)
}

/// The number of this kind in the bytes of a word from this one of its eight on.
#[tactic(auto, using(crate::proofs::Digits::shifted_number))]
pub fn number_in(word: u64, kind: Kind, byte: u32) -> i128
    requires { byte < 8 }
    ensures { result ≡ number_in kind byte word }
{
    Value::reduce(kind, i128::from(word >> (8 * byte))).number()
}
