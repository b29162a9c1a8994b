//! Why a text is refused.
ghost use Rattle.std.specs.Prelude.{◌≡◌};

use crate::rule::Rule;
use ido_base::memory::OutOfMemory;
use ido_base::place::Place;
use std::alloc::AllocError;
use thiserror::Error;

/// A rule that a text breaks, and where.
#[derive(Clone, Copy, Debug, PartialEq, Eq, Drop)]
pub struct Refusal {
    pub rule: Rule,
    pub place: Place,
}

/// Why a phase makes nothing of a text.
#[derive(Clone, Copy, Debug, PartialEq, Eq, Drop, Error)]
pub enum SourceError {
    /// The text breaks a rule.
    #[error("a rule is broken: {rule:?}", rule = .0.rule)]
    Refused(Refusal),
    /// An allocation was refused.
    #[error("out of memory")]
    Memory,
}

impl From<OutOfMemory> for SourceError {
    ghost use Rattle.c_tree.specs.declared.refusal.SourceError.TheVariants as error;

    ghost from_gives = { λ _ e. e ≡ error.Memory };

    fn from(_: OutOfMemory) -> Self {
        SourceError::Memory
    }
}

impl From<AllocError> for SourceError {
    ghost use Rattle.c_tree.specs.declared.refusal.SourceError.TheVariants as error;

    ghost from_gives = { λ _ e. e ≡ error.Memory };

    fn from(_: AllocError) -> Self {
        SourceError::Memory
    }
}
