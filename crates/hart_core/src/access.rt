//! Loads, stores, cleans and fences of a hart.
ghost use Rattle.std.specs.Prelude.{◌≡◌, ℕ, ◌+◌, ◌<◌, ◌≤◌, ◌^◌, List, Option, IfNone, IsTrue};
ghost use Rattle.ido_base.specs.Layout.{aligned as is_aligned};
ghost use Rattle.log_schemes.specs.Layout.{in_range as is_in_range};
ghost use Rattle.line_memory.specs.Access.{is_width};
ghost use Rattle.line_memory.specs.links.MemoryRepresentation.{log_in, threads_of, logs_of, stores_of};
ghost use Rattle.machine_model.specs.declared.phase.Phase.{Phase};
ghost use Rattle.rv64_isa.specs.Rows.{Effect, Loads, Stores, Cleans, Fences, load_bytes, load_signed, store_bytes};
ghost use Rattle.machine_model.specs.Machine.{applied};
ghost use Rattle.line_memory.specs.declared.memory.LineMemory.{LineMemory};
ghost use Rattle.hart_core.specs.StepsOnParts.{Parts, IsStep};
ghost use Rattle.hart_core.specs.links.Refusals.{refusal};

use crate::hart::Hart;
use crate::signs;
use line_memory::memory::LineMemory;
use line_memory::{aligned, full};
use machine_events::event::{Cause, Reply};
use rv64_isa::field::Register;
use rv64_isa::instr::{LoadKind, StoreKind};

fn load_width(kind: LoadKind) -> u32
    ensures { result ≡ load_bytes kind }
{
    match kind {
        LoadKind::Lb | LoadKind::Lbu => 1,
        LoadKind::Lh | LoadKind::Lhu => 2,
        LoadKind::Lw | LoadKind::Lwu => 4,
        LoadKind::Ld => 8,
    }
}

fn store_width(kind: StoreKind) -> u32
    ensures { result ≡ store_bytes kind }
{
    match kind {
        StoreKind::Sb => 1,
        StoreKind::Sh => 2,
        StoreKind::Sw => 4,
        StoreKind::Sd => 8,
    }
}

/// Why an access of so many bytes can't be made.
#[inline(always)]
fn refused(memory: &LineMemory, address: u64, bytes: u32) -> Option<Cause>
    requires { IsTrue (is_width bytes) }
    ensures cause { result ≡ refusal (logs_of memory.now) address bytes }
    ensures in_range { IfNone result (IsTrue (is_in_range (log_in memory.now) (threads_of memory.now) address bytes)) }
    ensures aligned { IfNone result (IsTrue (is_aligned address bytes)) }
{
    if !memory.in_range(address, bytes) {
        return Some(Cause::Outside { address });
    }
    if !aligned(address, bytes) {
        return Some(Cause::Unaligned { address });
    }
    None
}

/// A load into a register.
#[inline(always)]
pub(crate) fn load(
    kind: LoadKind,
    address: u64,
    register: Register,
    hart: &mut Hart,
    memory: &LineMemory,
) -> Reply
    ensures { (number : ℕ) (phase : Phase) (locks : List (Option ℕ))
        → IsStep (λ w model. applied w number model (Loads address (load_bytes kind) (load_signed kind) register)) number
        (record { phase = phase; hart = hart.old; memory = memory.now; locks = locks })
        (record { phase = phase; hart = hart.new; memory = memory.now; locks = locks }) result }
{
    let bytes = load_width(kind);
    if let Some(cause) = refused(memory, address, bytes) {
        return Reply::Stuck(cause);
    }
    let value = signs::loaded(kind, memory.load(address, bytes));
    hart.write(register, value);
    hart.go_on();
    Reply::Moved
}

/// A store of the low bytes of a value.
#[inline(always)]
pub(crate) fn store(
    kind: StoreKind,
    address: u64,
    value: u64,
    hart: &mut Hart,
    memory: &mut LineMemory,
) -> Reply
    requires { stores_of memory.old < 2 ^ 63 }
    ensures step { (number : ℕ) (phase : Phase) (locks : List (Option ℕ))
        → IsStep (λ w model. applied w number model (Stores address (store_bytes kind) value)) number
        (record { phase = phase; hart = hart.old; memory = memory.old; locks = locks })
        (record { phase = phase; hart = hart.new; memory = memory.new; locks = locks }) result }
    ensures logs { logs_of memory.new ≡ logs_of memory.old }
    ensures stores { stores_of memory.new ≤ stores_of memory.old + 1 }
{
    let bytes = store_width(kind);
    if let Some(cause) = refused(memory, address, bytes) {
        return Reply::Stuck(cause);
    }
    memory.store(address, bytes, value);
    hart.go_on();
    Reply::Moved
}

/// A clean of the line of an address. Where the queue is full, its oldest entry is written back.
pub(crate) fn clean(address: u64, hart: &mut Hart, memory: &mut LineMemory) -> Reply
    ensures step { (number : ℕ) (phase : Phase) (locks : List (Option ℕ)) → IsStep (λ w model. applied w number model (Cleans address)) number
        (record { phase = phase; hart = hart.old; memory = memory.old; locks = locks })
        (record { phase = phase; hart = hart.new; memory = memory.new; locks = locks }) result }
    ensures logs { logs_of memory.new ≡ logs_of memory.old }
    ensures stores { stores_of memory.new ≡ stores_of memory.old }
{
    if let Some(cause) = refused(memory, address, 1) {
        return Reply::Stuck(cause);
    }
    if full(&hart.queue) {
        memory.drain(&mut hart.queue);
        return Reply::Drained;
    }
    memory.clean(&mut hart.queue, memory.line_of(address));
    hart.go_on();
    Reply::Moved
}

/// A fence: the oldest entry of the queue is written back, until there is none.
pub(crate) fn fence(hart: &mut Hart, memory: &mut LineMemory) -> Reply
    ensures step { (number : ℕ) (phase : Phase) (locks : List (Option ℕ)) → IsStep (λ w model. applied w number model Fences) number
        (record { phase = phase; hart = hart.old; memory = memory.old; locks = locks })
        (record { phase = phase; hart = hart.new; memory = memory.new; locks = locks }) result }
    ensures logs { logs_of memory.new ≡ logs_of memory.old }
    ensures stores { stores_of memory.new ≡ stores_of memory.old }
{
    if hart.queue.is_empty() {
        hart.go_on();
        return Reply::Moved;
    }
    memory.drain(&mut hart.queue);
    Reply::Drained
}
