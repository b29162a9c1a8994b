//! What breaks the order.
ghost use Rattle.std.specs.Prelude.{◌≡◌};
ghost use Rattle.lock_order.specs.declared.error.OrderError.TheVariants.{Memory};

use ido_base::place::Place;
use std::alloc::AllocFailed;
use thiserror::Error;

/// The first fault of a walk, or want of memory.
#[derive(Clone, Copy, Debug, PartialEq, Eq, Drop, Error)]
pub enum OrderError {
    /// A lock is taken while one is held that isn't below it, which was taken at the earlier place.
    #[error("a lock is taken while one is held that isn't below it")]
    NotAbove { place: Place, earlier: Place },
    #[error("out of memory")]
    Memory,
}

impl<T: Drop> From<AllocFailed<T>> for OrderError {
    ghost from_gives = { λ _ e. e ≡ Memory };

    fn from(_: AllocFailed<T>) -> Self {
        OrderError::Memory
    }
}

impl From<std::alloc::AllocError> for OrderError {
    ghost from_gives = { λ _ e. e ≡ Memory };

    fn from(_: std::alloc::AllocError) -> Self {
        OrderError::Memory
    }
}
