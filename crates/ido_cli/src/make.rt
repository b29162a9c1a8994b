//! The command `make`: a source that is made of numbers.
ghost use Rattle.std.specs.Prelude.{IfOk};
ghost use Rattle.ido_cli.specs.Draws.{IsGenerated};

use crate::said::Said;
use ido_base::memory::OutOfMemory;
use run_scripts::generated::make_program;
use std::alloc::Global;

/// The source of a seed, whose threads make so many rounds.
pub fn make_answer(alloc: Global, rounds: u32, seed: u32) -> Result<Said, OutOfMemory>
    ensures { IfOk result (λ said. IsGenerated rounds seed said.status said.output.items) }
{
    let output = make_program(alloc, rounds, seed)?;
    Ok(Said { status: 0, output })
}
