//! The command `order`: whether each thread of a source takes its locks in their order.
ghost use Rattle.std.specs.Prelude.{◌≡◌, ◌≤◌, codes, length, IfOk};
ghost use Rattle.ido_base.specs.declared.limits.TheConstants.{MOST_SOURCE_BYTES};
ghost use Rattle.c_tree.specs.Flats.{flat_of};
ghost use Rattle.ido_compile.specs.LoggedTexts.{IsAcceptedAs};
ghost use Rattle.flat_compile.specs.TranslatedForms.{command_log};
ghost use Rattle.run_scripts.specs.Reports.{line};
ghost use Rattle.ido_cli.specs.Answers.{OrderAnswer};

use crate::refusal::{refused_after, source_refused};
use crate::said::Said;
use crate::scheme::COMMAND_LOG;
use c_tree::flat::Flat;
use ido_base::memory::OutOfMemory;
use ido_compile::front;
use lock_order::{OrderError, ordered};
use std::alloc::Global;

/// What is said of a flat form that keeps the order.
fn in_order(alloc: Global) -> Result<Said, OutOfMemory>
    ensures status { IfOk result (λ said. said.status ≡ 0) }
    ensures output { IfOk result (λ said. said.output.items ≡ line (codes "ordered")) }
{
    let output = format!(in alloc; "ordered\n")?;
    Ok(Said {
        status: 0,
        output: output.into_bytes(),
    })
}

/// What is said of the order in which a flat form locks.
fn flat_order(alloc: Global, source: &[u8], flat: &Flat) -> Result<Said, OutOfMemory>
    requires { length source.now ≤ MOST_SOURCE_BYTES }
    ensures { IfOk result (λ said. IsAcceptedAs command_log source.now (flat_of flat.now) → OrderAnswer source.now said.status said.output.items) }
{
    match ordered(alloc, flat) {
        Ok(()) => in_order(alloc),
        Err(OrderError::NotAbove { place, earlier }) => {
            refused_after(alloc, "L7", source, place, earlier)
        }
        Err(OrderError::Memory) => Err(OutOfMemory),
    }
}

/// The answer to a source text.
pub fn order_answer(alloc: Global, source: &[u8]) -> Result<Said, OutOfMemory>
    requires { length source.now ≤ MOST_SOURCE_BYTES }
    ensures { IfOk result (λ said. OrderAnswer source.now said.status said.output.items) }
{
    match front(alloc, COMMAND_LOG, source) {
        Ok(flat) => flat_order(alloc, source, &flat),
        Err(error) => source_refused(alloc, source, error),
    }
}
