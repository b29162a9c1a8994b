//! Objects of code with labels.
ghost use Rattle.std.specs.Prelude.{◌≡◌, ◌≤◌, All, IfOk, length, map, sum_by};
ghost use Rattle.ido_base.specs.declared.limits.TheConstants.{MOST_THREADS, MOST_CODE_WORDS};
ghost use Rattle.machine_model.specs.Objects.{program_of};
ghost use Rattle.rv64_isa.specs.Programs.{code_base};
ghost use Rattle.rv64_link.specs.LabelledCode.{most_words_of};
ghost use Rattle.rv64_link.specs.LinkedCode.{AreLinked};
ghost use Rattle.rv64_link.specs.links.Threads.{items_in};

use ido_base::memory::OutOfMemory;
use machine_model::object::{Code, Object};
use rv64_isa::object::Marks;
use rv64_link::link::link_threads;
use std::alloc::Global;

/// The object of code with labels, and the addresses of its marks. A branch is one word, or over many
/// items two: one by the inverse condition over a jump. A label stands where it stands first; one that
/// stands nowhere is the end.
///
/// There are at most 8 threads, each of at most 65,536 words, where each branch counts as two.
pub fn link(alloc: Global, code: Code) -> Result<(Object, Marks), OutOfMemory>
    requires threads { length code.threads.items ≤ MOST_THREADS }
    requires few { All (λ items. sum_by most_words_of items.items ≤ MOST_CODE_WORDS) code.threads.items }
    // The program does, thread after thread, what the code with labels does, and marks are the
    // addresses of the instructions that they stand before.
    ensures linked { IfOk result (λ r. AreLinked code_base (map items_in code.threads.items) (program_of r.0) r.1.threads.items) }
    ensures initial { IfOk result (λ r. r.0.initial ≡ code.initial) }
    ensures mutexes { IfOk result (λ r. r.0.mutexes ≡ code.mutexes) }
    ensures log { IfOk result (λ r. r.0.log ≡ code.log) }
{
    let threads = link_threads(alloc, &code.threads)?;
    let object = Object {
        code: threads.code,
        initial: code.initial,
        mutexes: code.mutexes,
        log: code.log,
    };
    let marks = Marks {
        threads: threads.marks,
    };
    Ok((object, marks))
}
