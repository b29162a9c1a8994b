//! What breaks the discipline.
ghost use Rattle.std.specs.Prelude.{◌≡◌};
ghost use Rattle.lock_discipline.specs.declared.error.LockError.TheVariants.{Memory};

use c_tree::expr::LockRef;
use ido_base::memory::OutOfMemory;
use ido_base::place::Place;
use std::alloc::{AllocError, AllocFailed};
use std::fmt;
use thiserror::Error;

/// The first fault of a walk, with its place and one lock, or want of memory.
#[derive(Clone, Copy, Drop, Error)]
pub enum LockError<'a> {
    /// A variable is used, and the lock that guards it isn't held.
    #[error("the lock that guards the variable is not held")]
    Unheld { place: Place, lock: LockRef<'a> },
    /// A lock is taken that is held.
    #[error("the lock is held already")]
    Again { place: Place, lock: LockRef<'a> },
    /// A lock is given back that isn't held.
    #[error("the lock is not held")]
    NotHeld { place: Place, lock: LockRef<'a> },
    /// Paths meet, and only some of them hold the lock.
    #[error("the lock is held on some paths and not on others")]
    Join { place: Place, lock: LockRef<'a> },
    /// A thread ends and holds the lock.
    #[error("the lock is held at the end")]
    EndHeld { place: Place, lock: LockRef<'a> },
    /// A local is assigned that the key of a held lock names.
    #[error("a key of a held lock names the local")]
    Frozen { place: Place, lock: LockRef<'a> },
    /// A lock is taken, and more are held after it than may be.
    #[error("as many locks are held as may be")]
    Held { place: Place, lock: LockRef<'a> },
    #[error("out of memory")]
    Memory,
}

/// Its message alone: the key of its lock is an expression of any size.
impl fmt::Debug for LockError<'_> {
    fn fmt<W: fmt::Write>(&self, f: &mut fmt::Formatter<W>) -> fmt::Result {
        fmt::Display::fmt(self, f)
    }
}

impl<'a, T: Drop> From<AllocFailed<T>> for LockError<'a> {
    ghost from_gives = { λ _ e. e ≡ Memory };

    fn from(_: AllocFailed<T>) -> Self {
        LockError::Memory
    }
}

impl<'a> From<AllocError> for LockError<'a> {
    ghost from_gives = { λ _ e. e ≡ Memory };

    fn from(_: AllocError) -> Self {
        LockError::Memory
    }
}

impl<'a> From<OutOfMemory> for LockError<'a> {
    ghost from_gives = { λ _ e. e ≡ Memory };

    fn from(_: OutOfMemory) -> Self {
        LockError::Memory
    }
}
