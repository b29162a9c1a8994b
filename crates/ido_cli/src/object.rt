//! The command `compile`: the object of a source.
ghost use Rattle.std.specs.Prelude.{◌≤◌, length, IfOk};
ghost use Rattle.ido_base.specs.declared.limits.TheConstants.{MOST_SOURCE_BYTES};
ghost use Rattle.ido_cli.specs.Answers.{CompileAnswer};

use crate::refusal::source_refused;
use crate::said::Said;
use ido_base::memory::OutOfMemory;
use ido_compile::compile;
use log_schemes::log::Log;
use object_format::writing::write_object;
use std::alloc::Global;

/// The answer to a source text.
pub fn compile_answer(alloc: Global, log: Log, source: &[u8]) -> Result<Said, OutOfMemory>
    requires { length source.now ≤ MOST_SOURCE_BYTES }
    ensures { IfOk result (λ said. CompileAnswer log source.now said.status said.output.items) }
{
    match compile(alloc, log, source) {
        Ok(compiled) => {
            let output = write_object(alloc, &compiled.translated.object)?;
            Ok(Said { status: 0, output })
        }
        Err(error) => source_refused(alloc, source, error),
    }
}
