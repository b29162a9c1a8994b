//! The durable words of logs.
ghost use Rattle.std.specs.Prelude.{◌≡◌, ◌==◌, ◌+◌, ◌-◌, ◌*◌, ◌/◌, ◌<◌, ◌≤◌, length};
ghost use Rattle.log_schemes.specs.declared.keeping.Keeping.TheVariants.{Listed};
ghost use Rattle.log_schemes.specs.declared.locals.Locals.TheVariants.{Frame};
ghost use Rattle.log_schemes.specs.Schemes.{keeping_of, locals_of, lock_slot, locks_read, read_as};
ghost use Rattle.log_schemes.specs.Layout.{frame_at, log_words};
ghost use Rattle.ido_base.specs.Locks.{has_lock, locks_in};
ghost use Rattle.crash_images.specs.Contents.{word_bytes};
ghost use Rattle.image_checks.specs.Logs.{home_in, log_locks, logged, logs_of, point_in, register_in, slot_in};
ghost use Rattle.ido_base.specs.declared.limits.TheConstants.{LOCAL_REGISTERS};

use crate::limits::{BANK_SLOTS, MASK_BITS};
use log_schemes::addresses::{LOCKS_SLOT, LOGS_BASE, SLOT_BYTES, frame_at, point_at, slot_at};
use log_schemes::keeping::Keeping;
use log_schemes::locals::Locals;
use log_schemes::log::{Log, MOST_LISTED};
use log_schemes::point::{Point, read_point};
use memory_layout::roles::LOCALS;

/// The word at an address of the logs.
fn logged(logs: &[u64], address: u64) -> u64
    requires base { LOGS_BASE ≤ address }
    requires within { (address - LOGS_BASE) / word_bytes < length logs.now }
    ensures { result ≡ logged logs.now address }
{
    logs[((address - LOGS_BASE) / SLOT_BYTES) as usize]
}

/// Where the thread is resumed.
pub fn point_in(log: Log, logs: &[u64], thread: u32) -> Point
    requires { log_words log * (thread + 1) ≤ length logs.now }
    ensures { result ≡ point_in (logs_of log logs.now) thread }
{
    read_point(logged(logs, point_at(log, thread)))
}

/// What is in one of the first slots of a bank, 0 or 1, of the thread's log.
pub fn slot_in(log: Log, logs: &[u64], thread: u32, bank: u32, slot: u8) -> u64
    requires log { log_words log * (thread + 1) ≤ length logs.now }
    requires bank { bank < 2 }
    requires slot { slot < BANK_SLOTS }
    ensures { result ≡ slot_in (logs_of log logs.now) thread bank slot }
{
    logged(logs, slot_at(log, thread, bank, u32::from(slot)))
}

/// What a bank keeps of a register.
pub fn register_in(log: Log, logs: &[u64], thread: u32, bank: u32, register: u8) -> u64
    requires log { log_words log * (thread + 1) ≤ length logs.now }
    requires bank { bank < 2 }
    requires register { register < 32 }
    ensures { result ≡ register_in (logs_of log logs.now) thread bank register }
{
    logged(
        logs,
        slot_at(log, thread, bank, u32::from(log.register_slot(register))),
    )
}

/// What is in a word of the thread's frame.
fn frame_in(log: Log, logs: &[u64], thread: u32, word: u8) -> u64
    requires log { log_words log * (thread + 1) ≤ length logs.now }
    requires frame { locals_of log ≡ Frame }
    requires word { word < LOCAL_REGISTERS }
    ensures { result ≡ logged logs.now (frame_at log thread word) }
{
    logged(logs, frame_at(log, thread, u32::from(word)))
}

/// What stands in the home of the locals of a colour: in the bank, or in the frame.
pub fn home_in(log: Log, logs: &[u64], thread: u32, bank: u32, colour: u8) -> u64
    requires log { log_words log * (thread + 1) ≤ length logs.now }
    requires bank { bank < 2 }
    requires colour { colour < LOCAL_REGISTERS }
    ensures { result ≡ home_in (logs_of log logs.now) thread bank colour }
{
    match log.locals() {
        Locals::Registers => register_in(log, logs, thread, bank, LOCALS[colour as usize]),
        Locals::Frame => frame_in(log, logs, thread, colour),
    }
}

/// What is in a slot of those that list locks.
pub fn listed_in(log: Log, logs: &[u64], thread: u32, bank: u32, index: u8) -> u64
    requires keeping { keeping_of log ≡ Listed }
    requires log { log_words log * (thread + 1) ≤ length logs.now }
    requires bank { bank < 2 }
    requires index { index < MOST_LISTED }
    ensures { result ≡ slot_in (logs_of log logs.now) thread bank (lock_slot log index) }
{
    logged(
        logs,
        slot_at(log, thread, bank, u32::from(log.lock_slot(index))),
    )
}

// ---- Locks

/// Whether the word is the number of the mutex.
fn is_number(word: u64, lock: u32) -> bool
    ensures { result ≡ (word == lock) }
{
    word == u64::from(lock)
}

/// Whether the mask has the mutex, for which it has a bit.
fn has_lock(mask: u64, lock: u32) -> bool
    requires { lock < MASK_BITS }
    ensures { result ≡ has_lock (locks_in mask) lock }
{
    (mask >> lock) % 2 == 1
}

/// Whether the mask has the mutex: it has none past its bits.
fn mask_has(mask: u64, lock: u32) -> bool
    ensures { result ≡ has_lock (locks_in mask) lock }
{
    if lock < MASK_BITS {
        has_lock(mask, lock)
    } else {
        false
    }
}

/// Whether the bank lists the mutex, among as many as it says, 16 at most.
fn is_listed(log: Log, logs: &[u64], thread: u32, bank: u32, lock: u32) -> bool
    requires keeping { keeping_of log ≡ Listed }
    requires log { log_words log * (thread + 1) ≤ length logs.now }
    requires bank { bank < 2 }
    ensures { result ≡ has_lock (read_as Listed log (λ slot. slot_in (logs_of log logs.now) thread bank slot)) lock }
{
    let count = slot_in(log, logs, thread, bank, LOCKS_SLOT).min(u64::from(MOST_LISTED));
    for index in 0..count as u8 {
        if is_number(listed_in(log, logs, thread, bank, index), lock) {
            return true;
        }
    }
    false
}

/// Whether the bank has the mutex.
fn bank_has(log: Log, logs: &[u64], thread: u32, bank: u32, lock: u32) -> bool
    requires log { log_words log * (thread + 1) ≤ length logs.now }
    requires bank { bank < 2 }
    ensures { result ≡ has_lock (locks_read log (λ slot. slot_in (logs_of log logs.now) thread bank slot)) lock }
{
    match log.keeping() {
        Keeping::Masked => mask_has(slot_in(log, logs, thread, bank, LOCKS_SLOT), lock),
        Keeping::Listed => is_listed(log, logs, thread, bank, lock),
    }
}

/// Whether the thread holds the mutex.
pub fn holds(log: Log, logs: &[u64], thread: u32, lock: u32) -> bool
    requires log { log_words log * (thread + 1) ≤ length logs.now }
    ensures { result ≡ has_lock (log_locks (logs_of log logs.now) thread) lock }
{
    match point_in(log, logs, thread) {
        Point::Idle => false,
        Point::At { bank, .. } => bank_has(log, logs, thread, bank, lock),
    }
}
