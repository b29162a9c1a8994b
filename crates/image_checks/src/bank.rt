//! What the bank of a log says of its thread.
ghost use Rattle.std.specs.Prelude.{◌≡◌, ◌==◌, ◌↔◌, ◌+◌, ◌*◌, ◌<◌, ◌≤◌, ◌^◌, ℕ, length, find, slice_index, IfOk, IsTrue, true, false};
ghost use Rattle.std.specs.Option.{option_copied};
ghost use Rattle.log_schemes.specs.declared.keeping.Keeping.TheVariants.{Listed};
ghost use Rattle.log_schemes.specs.Schemes.{keeping_of, lock_slot};
ghost use Rattle.log_schemes.specs.Layout.{log_words};
ghost use Rattle.ido_base.specs.Locks.{mask_with};
ghost use Rattle.c_tree.specs.Flats.{flat_of, thread_of};
ghost use Rattle.c_tree.specs.LockNames as locks;
ghost use Rattle.c_tree.specs.links.KnownNames.{names_of};
ghost use Rattle.flat_compile.specs.declared.resumes.LiveLocal.{LiveLocal};
ghost use Rattle.image_checks.specs.Checks.{kinds_of_thread, names_of_thread};
ghost use Rattle.image_checks.specs.Logs.{AreOnce, Lists, home_in, local_by, locals_by, logs_of, slot_in};
ghost use Rattle.image_checks.specs.ResumeSlots.{HaveSlots};

use crate::limits::MASK_BITS;
use crate::logs::{home_in, listed_in, slot_in};
use crate::slots::reduced;
use c_tree::expr::LockRef;
use c_tree::flat::{Flat, Thread};
use c_tree::lock_names::lock_names;
use flat_compile::resumes::LiveLocal;
use ido_base::memory::OutOfMemory;
use log_schemes::addresses::LOCKS_SLOT;
use log_schemes::log::{Log, MOST_LISTED};
use std::alloc::Global;

// ---- Its thread

/// The names by which a thread takes locks.
fn names_in<'a>(
    alloc: Global,
    flat: &'a Flat,
    thread: &'a Thread,
) -> Result<Vec<LockRef<'a>>, OutOfMemory>
    ensures { IfOk result (λ names. names_of names.items ≡ locks.lock_names (flat_of flat.now) (thread_of thread.now)) }
{
    let names = lock_names(alloc, &flat.mutexes, &thread.body)?;
    Ok(names)
}

/// The names by which the thread of that number takes locks, if there is one.
pub fn names_of_thread<'a>(
    alloc: Global,
    flat: &'a Flat,
    thread: u32,
) -> Result<Vec<LockRef<'a>>, OutOfMemory>
    ensures { IfOk result (λ names. names_of names.items ≡ names_of_thread (flat_of flat.now) thread) }
{
    match flat.threads.get(thread as usize) {
        Some(found) => names_in(alloc, flat, found),
        None => Ok(Vec::new(alloc)),
    }
}

/// How many locals the thread of that number has, if there is one.
pub fn locals_of_thread(flat: &Flat, thread: u32) -> usize
    ensures { result ≡ length (kinds_of_thread (flat_of flat.now) thread) }
{
    match flat.threads.get(thread as usize) {
        Some(found) => found.locals.len(),
        None => 0,
    }
}

// ---- The numbers of its locals

/// The first of the live locals that has that number.
fn live_local(live: &[LiveLocal], local: usize) -> Option<&LiveLocal>
    ensures { option_copied result ≡ find (λ (l : LiveLocal). l.local == local) live.now }
{
    live.iter().find(|found| found.local == local)
}

/// The number of a local, where these are live.
fn local_by(
    log: Log,
    live: &[LiveLocal],
    logs: &[u64],
    thread: u32,
    bank: u32,
    local: usize,
) -> i128
    requires slots { HaveSlots live.now }
    requires log { log_words log * (thread + 1) ≤ length logs.now }
    requires bank { bank < 2 }
    ensures { result ≡
        local_by (λ colour. home_in (logs_of log logs.now) thread bank colour) (find (λ (l : LiveLocal). l.local == local) live.now) }
{
    match live_local(live, local) {
        Some(found) => reduced(found.kind, home_in(log, logs, thread, bank, found.colour)),
        None => 0,
    }
}

/// The numbers of so many locals, where these are live.
pub fn locals_by(
    alloc: Global,
    log: Log,
    live: &[LiveLocal],
    logs: &[u64],
    thread: u32,
    bank: u32,
    count: usize,
) -> Result<Vec<i128>, OutOfMemory>
    requires slots { HaveSlots live.now }
    requires log { log_words log * (thread + 1) ≤ length logs.now }
    requires bank { bank < 2 }
    ensures { IfOk result (λ numbers. numbers.items ≡ locals_by (λ colour. home_in (logs_of log logs.now) thread bank colour) live.now count) }
{
    let mut numbers = Vec::new(alloc);
    for local in 0..count {
        numbers.push(local_by(log, live, logs, thread, bank, local))?;
    }
    Ok(numbers)
}

// ---- Its locks

/// The mask with one mutex.
fn bit(number: u32) -> u64
    requires { number < MASK_BITS }
    ensures { result ≡ 2 ^ number }
{
    1 << number
}

/// The mask with the mutexes of these numbers.
fn mask_with(numbers: &[u32]) -> u64
    requires { mask_with numbers.now < 2 ^ 64 }
    ensures { result ≡ mask_with numbers.now }
{
    let mut mask = 0;
    for number in numbers {
        mask += bit(*number);
    }
    mask
}

/// Whether the bank's mask has the mutexes of these numbers, and no others.
pub fn has_mask(log: Log, logs: &[u64], thread: u32, bank: u32, numbers: &[u32]) -> bool
    requires log { log_words log * (thread + 1) ≤ length logs.now }
    requires bank { bank < 2 }
    requires fits { mask_with numbers.now < 2 ^ 64 }
    ensures { result ≡ (slot_in (logs_of log logs.now) thread bank LOCKS_SLOT == mask_with numbers.now) }
{
    slot_in(log, logs, thread, bank, LOCKS_SLOT) == mask_with(numbers)
}

/// Whether the word is the number of the lock.
fn is_lock(word: u64, lock: u128) -> bool
    ensures { result ≡ (word == lock) }
{
    u128::from(word) == lock
}

/// Whether the lock stands in that place of the bank's list.
fn is_listed_at(log: Log, logs: &[u64], thread: u32, bank: u32, index: usize, lock: u128) -> bool
    requires keeping { keeping_of log ≡ Listed }
    requires log { log_words log * (thread + 1) ≤ length logs.now }
    requires bank { bank < 2 }
    requires index { index < MOST_LISTED }
    ensures { result ≡ (slot_in (logs_of log logs.now) thread bank (lock_slot log index) == lock) }
{
    is_lock(listed_in(log, logs, thread, bank, index as u8), lock)
}

/// Whether the bank says that so many locks are listed.
fn has_count(log: Log, logs: &[u64], thread: u32, bank: u32, count: usize) -> bool
    requires log { log_words log * (thread + 1) ≤ length logs.now }
    requires bank { bank < 2 }
    ensures { result ≡ (slot_in (logs_of log logs.now) thread bank LOCKS_SLOT == count) }
{
    slot_in(log, logs, thread, bank, LOCKS_SLOT) == count as u64
}

/// Whether the bank lists these locks, in this order, and no others.
pub fn lists(log: Log, logs: &[u64], thread: u32, bank: u32, locks: &[u128]) -> bool
    requires keeping { keeping_of log ≡ Listed }
    requires log { log_words log * (thread + 1) ≤ length logs.now }
    requires bank { bank < 2 }
    requires few { length locks.now ≤ MOST_LISTED }
    ensures { IsTrue result ↔ Lists log (λ slot. slot_in (logs_of log logs.now) thread bank slot) locks.now }
{
    for index in 0..locks.len() {
        if !is_listed_at(log, logs, thread, bank, index, locks[index]) {
            return false;
        }
    }
    has_count(log, logs, thread, bank, locks.len())
}

/// Whether the lock of that place stands before it too.
fn stands_before(locks: &[u128], place: usize) -> bool
    requires { place < length locks.now }
    ensures found { result ≡ true → (i : ℕ) × (i < place) × (slice_index locks.now i ≡ slice_index locks.now place) }
    ensures none { result ≡ false → (i : ℕ) → i < place → ¬ (slice_index locks.now i ≡ slice_index locks.now place) }
{
    for index in 0..place {
        if locks[index] == locks[place] {
            return true;
        }
    }
    false
}

/// Whether no lock stands in the list twice.
pub fn are_once(locks: &[u128]) -> bool
    ensures { IsTrue result ↔ AreOnce locks.now }
{
    for place in 0..locks.len() {
        if stands_before(locks, place) {
            return false;
        }
    }
    true
}
