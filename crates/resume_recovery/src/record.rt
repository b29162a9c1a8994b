//! What a thread's log says durably: the point, and its bank.
ghost use Rattle.std.specs.Prelude.{◌≡◌, ◌<◌, List, Some, IfSome, length, if◌then◌else◌};
ghost use Rattle.log_schemes.specs.Layout.{slot_at};
ghost use Rattle.ido_base.specs.Locks.{is_missing, lesser, least_missing};
ghost use Rattle.log_schemes.specs.declared.keeping.Keeping.TheVariants.{Listed};
ghost use Rattle.ido_base.specs.Words.{Word};
ghost use Rattle.line_memory.specs.links.MemoryRepresentation.{Represents, log_in, threads_of};
ghost use Rattle.log_schemes.specs.Points.{point_of};
ghost use Rattle.resume_recovery.specs.links.Points.{bank_in};
ghost use Rattle.machine_model.specs.Machine.{resume_of, durable_at, durable_point, record_of, phase_after_crash, resumed_register, resumed_registers};
ghost use Rattle.log_schemes.specs.Schemes.{keeping_of, read_as};

use line_memory::memory::LineMemory;
use lock_table::LockTable;
use log_schemes::addresses::LOCKS_SLOT;
use log_schemes::keeping::Keeping;
use log_schemes::log::MOST_LISTED;
use log_schemes::point::{Point, read_point};
use machine_model::phase::Phase;
use memory_layout::roles::BANK_OFFSET;

/// What the hart's durable point says.
fn point_of(hart: u32, memory: &LineMemory) -> Point
    requires { hart < threads_of memory.now }
    ensures point { (words : List Word) → Represents memory.now words → result ≡ point_of (durable_point (log_in memory.now) words hart) }
    ensures bank { bank_in result < 2 }
{
    read_point(memory.durable_point(hart))
}

/// The bank of a point; the first where it is idle.
fn bank_of(point: Point) -> u32
    ensures { result ≡ bank_in point }
{
    match point {
        Point::Idle => 0,
        Point::At { bank, .. } => bank,
    }
}

/// The address at which the hart's durable point resumes; 0 where it is idle.
pub fn resume_address(hart: u32, memory: &LineMemory) -> u64
    requires { hart < threads_of memory.now }
    ensures { (words : List Word) → Represents memory.now words → result ≡ resume_of (durable_point (log_in memory.now) words hart) }
{
    match point_of(hart, memory) {
        Point::Idle => 0,
        Point::At { address, .. } => address,
    }
}

/// The lesser of a lock that the hart lacks and the least of others; the least of the others where the hart doesn't lack it.
fn lesser_missing(hart: u32, locks: &LockTable, lock: u64, least: Option<u32>) -> Option<u32>
    requires { IfSome least (λ other. other < length locks.now) }
    ensures value { result ≡ (if is_missing locks.now hart lock then Some (lesser lock least) else least) }
    ensures within { IfSome result (λ lock. lock < length locks.now) }
{
    if !locks.lacks(lock, hart) {
        return least;
    }
    let lock = lock as u32;
    match least {
        None => Some(lock),
        Some(other) => Some(lock.min(other)),
    }
}

/// The least lock that a list in a bank has and the hart lacks: slot 0 says how many there are, 16 at most, and each has its slot.
fn missing_of_list(hart: u32, bank: u32, memory: &LineMemory, locks: &LockTable) -> Option<u32>
    requires hart { hart < threads_of memory.now }
    requires bank { bank < 2 }
    requires keeping { keeping_of (log_in memory.now) ≡ Listed }
    ensures value { (words : List Word) → Represents memory.now words → result ≡ least_missing locks.now
        (read_as Listed (log_in memory.now) (λ slot. durable_at words (slot_at (log_in memory.now) hart bank slot))) hart }
    ensures within { IfSome result (λ lock. lock < length locks.now) }
{
    let log = memory.log();
    let count = memory
        .durable_slot(hart, bank, u32::from(LOCKS_SLOT))
        .min(u64::from(MOST_LISTED));
    let mut least = None;
    for index in 0..count as u8 {
        let lock = memory.durable_slot(hart, bank, u32::from(log.lock_slot(index)));
        least = lesser_missing(hart, locks, lock, least);
    }
    least
}

/// The least lock of those that the hart held at its durable point that exists and that the hart doesn't hold.
pub fn missing_lock(hart: u32, memory: &LineMemory, locks: &LockTable) -> Option<u32>
    requires { hart < threads_of memory.now }
    ensures value { (words : List Word) → Represents memory.now words →
        result ≡ least_missing locks.now (record_of (log_in memory.now) words hart) hart }
    ensures within { IfSome result (λ lock. lock < length locks.now) }
{
    match point_of(hart, memory) {
        Point::Idle => None,
        Point::At { bank, .. } => match memory.log().keeping() {
            Keeping::Masked => {
                locks.least_missing(memory.durable_slot(hart, bank, u32::from(LOCKS_SLOT)), hart)
            }
            Keeping::Listed => missing_of_list(hart, bank, memory, locks),
        },
    }
}

/// The phase of the hart after a crash: done where its durable point is idle, else it takes its locks.
pub fn phase_after_crash(hart: u32, memory: &LineMemory) -> Phase
    requires { hart < threads_of memory.now }
    ensures { (words : List Word) → Represents memory.now words → result ≡ phase_after_crash (durable_point (log_in memory.now) words hart) }
{
    match point_of(hart, memory) {
        Point::Idle => Phase::Done,
        Point::At { .. } => Phase::Take,
    }
}

/// What a register resumes with: x3 has the bank's offset, those that banks keep are as the bank has them, and all others are 0.
fn resumed_register(hart: u32, register: u8, memory: &LineMemory) -> u64
    requires hart { hart < threads_of memory.now }
    requires register { register < 32 }
    ensures { (words : List Word) → Represents memory.now words → result ≡ resumed_register (log_in memory.now) words hart register }
{
    let bank = bank_of(point_of(hart, memory));
    let log = memory.log();
    if register == BANK_OFFSET {
        return log.bank_bytes() * u64::from(bank);
    }
    if !log.keeps_register(register) {
        return 0;
    }
    memory.durable_slot(hart, bank, u32::from(log.register_slot(register)))
}

/// What the registers resume with.
pub fn resumed_registers(hart: u32, memory: &LineMemory) -> [u64; 32]
    requires { hart < threads_of memory.now }
    ensures { (words : List Word) → Represents memory.now words → result ≡ resumed_registers (log_in memory.now) words hart }
{
    let mut registers = [0; 32];
    for register in 0..32 {
        registers[register as usize] = resumed_register(hart, register, memory);
    }
    registers
}
