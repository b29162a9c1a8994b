//! Mutexes that two threads hold.
ghost use Rattle.std.specs.Prelude.{◌≡◌, ◌↔◌, ◌*◌, ◌<◌, ◌≤◌, ◌^◌, ℕ, length, IsTrue, MatchOption, MatchResult};
ghost use Rattle.log_schemes.specs.Layout.{log_words};
ghost use Rattle.image_checks.specs.Logs.{HoldsLock, logs_of};
ghost use Rattle.image_checks.specs.Checks.{AreFirstTwo, IsUnshared, IsMutexFault};
ghost use Rattle.image_checks.specs.links.Holders.{IsNextHolder, HasNoHolder};

use crate::error::ImageError;
use crate::logs::holds;
use ido_base::limits::MOST_LOCKS;
use log_schemes::log::Log;

/// The least of so many threads, from one on, that holds the mutex.
fn holder_from(log: Log, logs: &[u64], threads: u32, from: u32, lock: u32) -> Option<u32>
    requires logs { log_words log * threads ≤ length logs.now }
    ensures { MatchOption result (HasNoHolder (logs_of log logs.now) threads from lock) (IsNextHolder (logs_of log logs.now) threads from lock) }
{
    for thread in from..threads {
        if holds(log, logs, thread, lock) {
            return Some(thread);
        }
    }
    None
}

/// The least two of so many threads that hold the mutex.
fn holders(log: Log, logs: &[u64], threads: u32, lock: u32) -> Option<(u32, u32)>
    requires logs { log_words log * threads ≤ length logs.now }
    ensures { MatchOption result (IsUnshared (logs_of log logs.now) threads lock) (λ two. AreFirstTwo (logs_of log logs.now) threads lock two.0 two.1) }
{
    let first = holder_from(log, logs, threads, 0, lock)?;
    let second = holder_from(log, logs, threads, first + 1, lock)?;
    Some((first, second))
}

/// The least mutex that two of so many threads hold.
pub fn check_mutexes(log: Log, logs: &[u64], threads: u32) -> Result<(), ImageError>
    requires logs { log_words log * threads ≤ length logs.now }
    // No more mutexes are there.
    requires low { (thread lock : ℕ) → thread < threads → HoldsLock (logs_of log logs.now) thread lock → lock < MOST_LOCKS }
    ensures { MatchResult result (λ _. (lock : ℕ) → IsUnshared (logs_of log logs.now) threads lock) (IsMutexFault (logs_of log logs.now) threads) }
{
    for lock in 0..MOST_LOCKS {
        if let Some((first, second)) = holders(log, logs, threads, lock) {
            return Err(ImageError::Shared {
                lock,
                first,
                second,
            });
        }
    }
    Ok(())
}
