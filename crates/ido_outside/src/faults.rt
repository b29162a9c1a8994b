//! What can go wrong outside.
ghost use Rattle.std.specs.Prelude.{◌≡◌};
ghost use Rattle.ido_outside.specs.declared.faults.InFault.TheVariants.{Failed as InFailed, Memory as InMemory};

use std::alloc::AllocError;
use thiserror::Error;

/// A source or a sink failed: its count of faults rose.
#[derive(Debug, Drop, PartialEq, Eq, Error)]
#[error("the source or sink failed")]
pub struct Failed;

/// Why an input was not read whole.
#[derive(Debug, Drop, PartialEq, Eq, Error)]
pub enum InFault {
    /// The source failed.
    #[error("the source failed")]
    Failed,
    /// The input has more bytes than the limit.
    #[error("the input is too long")]
    TooLong,
    /// Want of memory.
    #[error("out of memory")]
    Memory,
}

impl From<Failed> for InFault {
    ghost from_gives = { λ _ e. e ≡ InFailed };

    fn from(_: Failed) -> Self {
        InFault::Failed
    }
}

impl From<AllocError> for InFault {
    ghost from_gives = { λ _ e. e ≡ InMemory };

    fn from(_: AllocError) -> Self {
        InFault::Memory
    }
}
