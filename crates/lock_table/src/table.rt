//! The table of lock holders.
ghost use Rattle.std.specs.Prelude.{◌≡◌, ◌<◌, ◌%◌, ◌^◌, ◌==◌, ◌&&◌, not, ℕ, Option, Some, None, length};
ghost use Rattle.std.specs.Prelude.{replicate, slice_get, slice_set, IfOk, IfSome, IsTrue, ◌↔◌};
ghost use Rattle.std.specs.Bool.{OnTrue, OnFalse};
ghost use Rattle.ido_base.specs.Locks.{is_held_by, is_missing, least_held, holds_none, least_missing, locks_in};
ghost use Rattle.lock_table.specs.links.HeldCounts.{AreCounted};

use ido_base::locks::is_held_by;
use ido_base::memory::OutOfMemory;
use std::alloc::Global;
use std::marker::Model;

/// Of each lock the hart that holds it, or none. Harts are any numbers; of the first ones it counts what each holds, so that no lock has to be looked at to see
/// that such a hart holds none.
#[derive(Drop)]
pub struct LockTable {
    holders: Vec<Option<u32>>,
    held: Vec<u32>,
    ghost counted: { AreCounted holders.items held.items },
}

impl Model for LockTable {
    ghost use Rattle.std.specs.Prelude.{ℕ, ◌<◌, ◌^◌, List, Option, length};

    ghost Value = { List (Option ℕ) };

    ghost view = { λ t. t.holders.items };

    ghost invariant = { λ t. length t.holders.items < 2 ^ 32 };
}

/// The lowest bit of the mask is set, and the hart doesn't hold the lock of this holder.
fn is_missing(mask: u64, holder: Option<u32>, hart: u32) -> bool
    ensures { result ≡ ((mask % 2 == 1) && not (is_held_by hart holder)) }
{
    mask % 2 == 1 && !is_held_by(hart, holder)
}

impl LockTable {
    /// A table of so many locks, all free, that counts what each of the first `harts` harts holds.
    pub fn new(alloc: Global, locks: u32, harts: u32) -> Result<LockTable, OutOfMemory>
        ensures { IfOk result (λ table. table ≡ replicate locks None) }
    {
        let holders: Vec<Option<u32>> = vec![in alloc; None; locks as usize]?;
        let held = vec![in alloc; 0; harts as usize]?;
        Ok(LockTable { holders, held })
    }

    /// How many locks there are.
    pub fn locks(&self) -> u32
        ensures { result ≡ length self.now }
    {
        self.holders.len() as u32
    }

    /// The hart that holds the lock.
    pub fn held_by(&self, lock: u32) -> Option<u32>
        requires { lock < length self.now }
        ensures { slice_get self.now lock ≡ Some result }
    {
        self.holders[lock as usize]
    }

    /// Gives the lock to the hart if it is free: false exactly where it has a holder, this hart or another.
    pub fn try_take(&mut self, hart: u32, lock: u32) -> bool
        requires { lock < length self.old }
        ensures free { IsTrue result ↔ (slice_get self.old lock ≡ Some None) }
        ensures taken { OnTrue result (self.new ≡ slice_set self.old lock (Some hart)) }
        ensures kept { OnFalse result (self.new ≡ self.old) }
    {
        if self.holders[lock as usize].is_some() {
            return false;
        }
        self.holders[lock as usize] = Some(hart);
        if (hart as usize) < self.held.len() {
            self.held[hart as usize] += 1;
        }
        true
    }

    /// Frees the lock, whoever holds it.
    /// Whether a hart may release the lock is for the caller: it isn't asked here.
    pub fn give(&mut self, lock: u32)
        requires { lock < length self.old }
        ensures { self.new ≡ slice_set self.old lock None }
    {
        if let Some(hart) = self.holders[lock as usize] {
            self.holders[lock as usize] = None;
            if (hart as usize) < self.held.len() {
                self.held[hart as usize] -= 1;
            }
        }
    }

    /// Frees all locks.
    pub fn clear(&mut self)
        ensures { self.new ≡ replicate (length self.old) None }
    {
        self.holders.fill(None);
        self.held.fill(0);
    }

    /// The least lock that the hart holds.
    pub fn least_held(&self, hart: u32) -> Option<u32>
        ensures value { result ≡ least_held self.now hart }
        ensures within { IfSome result (λ lock. lock < length self.now) }
    {
        for (lock, holder) in self.holders.iter().enumerate() {
            if is_held_by(hart, *holder) {
                return Some(lock as u32);
            }
        }
        None
    }

    /// The hart holds no lock.
    pub fn holds_none(&self, hart: u32) -> bool
        ensures { result ≡ holds_none self.now hart }
    {
        if (hart as usize) < self.held.len() {
            return self.held[hart as usize] == 0;
        }
        self.least_held(hart).is_none()
    }

    /// There is a lock of this number, and the hart doesn't hold it.
    pub fn lacks(&self, lock: u64, hart: u32) -> bool
        ensures missing { result ≡ is_missing self.now hart lock }
        ensures few { OnTrue result (lock < 2 ^ 32) }
    {
        if lock >= self.holders.len() as u64 {
            return false;
        }
        !is_held_by(hart, self.holders[lock as usize])
    }

    /// The least lock of the mask (bit i stands for lock i) that the hart doesn't hold. Bits without a lock
    /// don't count.
    pub fn least_missing(&self, mask: u64, hart: u32) -> Option<u32>
        ensures value { result ≡ least_missing self.now (locks_in mask) hart }
        ensures within { IfSome result (λ lock. lock < length self.now) }
    {
        let mut rest = mask;
        for (lock, holder) in self.holders.iter().enumerate() {
            if is_missing(rest, *holder, hart) {
                return Some(lock as u32);
            }
            rest /= 2;
        }
        None
    }
}
