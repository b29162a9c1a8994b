//! Who holds the mutexes, and how many sections have ended.
ghost use Rattle.std.specs.Prelude.{◌≡◌, ℕ, ◌+◌, IsTrue, ◌↔◌, Some, None, slice_get, slice_set, replicate, IfOk};
ghost use Rattle.std.specs.Bool.{OnTrue, OnFalse};
ghost use Rattle.ido_base.specs.Locks.{is_held_by, holds_none};
ghost use Rattle.source_machine.specs.Sections.{AreCounted};
ghost use Rattle.source_machine.specs.links.SectionEnds.{ends, is_one};
ghost use Rattle.source_machine.specs.links.Holders.{hold_none, is_among};

use ido_base::locks::is_held_by;
use ido_base::memory::OutOfMemory;
use std::alloc::Global;

/// The holders of so many mutexes, all of them free.
pub fn free(alloc: Global, mutexes: usize) -> Result<Vec<Option<u32>>, OutOfMemory>
    ensures { IfOk result (λ holders. holders.items ≡ replicate mutexes None) }
{
    let holders: Vec<Option<u32>> = vec![in alloc; None; mutexes]?;
    Ok(holders)
}

/// The thread holds no mutex.
pub fn holds_none(holders: &[Option<u32>], thread: u32) -> bool
    ensures { result ≡ holds_none holders.now thread }
{
    for holder in holders {
        if is_held_by(thread, *holder) {
            return false;
        }
    }
    true
}

/// The holder is one of so many threads.
fn is_among(threads: usize, holder: Option<u32>) -> bool
    ensures { result ≡ is_among threads holder }
{
    match holder {
        Some(thread) => (thread as usize) < threads,
        None => false,
    }
}

/// None of so many threads holds a mutex.
pub fn hold_none(holders: &[Option<u32>], threads: usize) -> bool
    ensures { result ≡ hold_none holders.now threads }
{
    for holder in holders {
        if is_among(threads, *holder) {
            return false;
        }
    }
    true
}

/// Gives the mutex to the thread where it is free.
pub fn take(holders: &mut [Option<u32>], lock: u128, thread: u32) -> bool
    ensures free { IsTrue result ↔ (slice_get holders.old lock ≡ Some None) }
    ensures taken { OnTrue result (holders.new ≡ slice_set holders.old lock (Some thread)) }
    ensures kept { OnFalse result (holders.new ≡ holders.old) }
{
    if lock >= holders.len() as u128 {
        return false;
    }
    let lock = lock as usize;
    if holders[lock].is_some() {
        return false;
    }
    holders[lock] = Some(thread);
    true
}

/// Frees the mutex, whoever holds it. Where its holder has none left, a section of it has ended.
pub fn release(holders: &mut [Option<u32>], sections: &mut [u64], lock: u128)
    ensures holders { holders.new ≡ slice_set holders.old lock None }
    ensures sections { (ended : ℕ → ℕ) → AreCounted sections.old ended → AreCounted sections.new (λ k. ended k + ends holders.old holders.new k) }
{
    if lock < holders.len() as u128 {
        let lock = lock as usize;
        let holder = holders[lock];
        holders[lock] = None;
        if let Some(thread) = holder {
            if holds_none(holders, thread) {
                count(sections, thread);
            }
        }
    }
}

/// Counts one section more for the thread, where there is such a thread.
fn count(sections: &mut [u64], thread: u32)
    ensures { (ended : ℕ → ℕ) → AreCounted sections.old ended → AreCounted sections.new (λ k. ended k + is_one thread k) }
{
    let thread = thread as usize;
    if thread < sections.len() {
        sections[thread] = sections[thread].saturating_add(1);
    }
}
