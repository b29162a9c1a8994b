//! What cuts are found to be.
ghost use Rattle.std.specs.Prelude.{◌≡◌};

use ido_base::memory::OutOfMemory;
use thiserror::Error;

/// The cuts are right: boundaries stand after each lock and before each unlock, and each region may be run again.
#[derive(Clone, Copy, Debug, PartialEq, Eq, Drop)]
pub struct Idempotent;

/// Why cuts are refused.
#[derive(Clone, Copy, Debug, PartialEq, Eq, Drop, Error)]
pub enum CheckError {
    /// No boundary stands after the lock at this node.
    #[error("no boundary stands after the lock at node {node}")]
    MissingAfterAcquire { node: usize },
    /// No boundary stands before the unlock at this node.
    #[error("no boundary stands before the unlock at node {node}")]
    MissingBeforeRelease { node: usize },
    /// A region overwrites at the node `store` what it has read at the node `read`.
    #[error("node {store} overwrites what node {read} reads in the same region")]
    Anti { read: usize, store: usize },
    /// An allocation was refused.
    #[error("out of memory")]
    Memory,
}

impl From<OutOfMemory> for CheckError {
    ghost use Rattle.region_checker.specs.declared.error.CheckError.TheVariants.{Memory as Unremembered};

    ghost from_gives = { λ _ e. e ≡ Unremembered };

    fn from(_: OutOfMemory) -> Self {
        CheckError::Memory
    }
}

/// No cut set has fewer boundaries in the straight code.
#[derive(Clone, Copy, Debug, PartialEq, Eq, Drop)]
pub struct Least;

/// Why labels are refused.
#[derive(Clone, Copy, Debug, PartialEq, Eq, Drop, Error)]
pub enum LabelError {
    /// The first label isn't 0.
    #[error("the first label is not 0")]
    Start,
    /// A region may lead from the one node to the other, whose label is more than one greater.
    #[error("a region may lead from node {from} to node {to}, whose label is more than one greater")]
    Edge { from: usize, to: usize },
    /// The last label isn't one more than the boundaries are.
    #[error("the last label is {label}, and there are {cuts} boundaries")]
    End { label: usize, cuts: usize },
    /// An allocation was refused.
    #[error("out of memory")]
    Memory,
}

impl From<OutOfMemory> for LabelError {
    ghost use Rattle.region_checker.specs.declared.error.LabelError.TheVariants.{Memory as Unlabelled};

    ghost from_gives = { λ _ e. e ≡ Unlabelled };

    fn from(_: OutOfMemory) -> Self {
        LabelError::Memory
    }
}
