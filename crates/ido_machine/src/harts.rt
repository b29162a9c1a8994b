//! The harts of a machine at its start and after a crash.
ghost use Rattle.std.specs.Prelude.{◌≡◌, ℕ, List, length, map, IfOk};
ghost use Rattle.ido_base.specs.Words.{Word};
ghost use Rattle.line_memory.specs.links.MemoryRepresentation.{Represents, log_in, threads_of};
ghost use Rattle.machine_model.specs.Machine.{phase_after_crash, durable_point};
ghost use Rattle.log_schemes.specs.Schemes.{numbers_from};
ghost use Rattle.ido_machine.specs.Harts.{AreAnew, AreFresh};

use hart_core::hart::Hart;
use hart_core::program::Program;
use ido_base::memory::OutOfMemory;
use line_memory::memory::LineMemory;
use machine_model::phase::Phase;
use resume_recovery::phase_after_crash;
use std::alloc::Global;

/// The harts at the start, each at the first word of its code.
pub(crate) fn fresh(alloc: Global, program: &Program) -> Result<Vec<Hart>, OutOfMemory>
    ensures { IfOk result (λ harts. AreFresh program.now harts.items (length program.now)) }
{
    let mut harts = Vec::with_capacity(alloc, program.threads() as usize)?;
    for thread in 0..program.threads() {
        harts.push(Hart::new(program.start_of(thread)))?;
    }
    Ok(harts)
}

/// The harts after a crash: each is at the first word of its code again, with nothing queued.
pub(crate) fn restart(program: &Program, harts: &mut [Hart])
    requires { length harts.old ≡ length program.now }
    ensures { AreFresh program.now harts.new (length program.now) }
{
    for thread in 0..program.threads() {
        harts[thread as usize].restart(program.start_of(thread));
    }
}

/// The harts where another life begins: each is at the first word of its code again, with what it had queued.
pub(crate) fn begin_anew(program: &Program, harts: &mut [Hart])
    requires { length harts.old ≡ length program.now }
    ensures { AreAnew program.now harts.old harts.new }
{
    for thread in 0..program.threads() {
        let at = thread as usize;
        harts[at].begin_anew(program.start_of(thread));
    }
}

/// The phases of all harts after a crash that left this memory.
pub(crate) fn set_phases(phases: &mut [Phase], memory: &LineMemory)
    requires { length phases.old ≡ threads_of memory.now }
    ensures length { length phases.new ≡ length phases.old }
    ensures phases { (words : List Word) → Represents memory.now words
        → phases.new ≡ map (λ thread. phase_after_crash (durable_point (log_in memory.now) words thread)) (numbers_from 0 (length phases.old)) }
{
    for thread in 0..phases.len() {
        phases[thread] = phase_after_crash(thread as u32, memory);
    }
}
