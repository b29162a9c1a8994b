//! What steps and runs answer.
use thiserror::Error;

/// What a step of a thread did.
#[derive(Clone, Copy, PartialEq, Eq, Debug)]
pub enum Stepped {
    /// The step is made.
    Did,
    /// There is no step: the thread waits for a lock that isn't free, or that there isn't.
    Waits { lock: u128 },
    /// There is no step: the thread has ended, or it stands at an `if` that has no condition.
    Ended,
}

/// Why a step of a schedule can't be made.
#[derive(Clone, Copy, PartialEq, Eq, Debug)]
pub enum RefusedKind {
    /// There is no thread of that number.
    UnknownThread,
    /// The thread waits for a mutex that isn't free.
    Waits,
    /// The thread has ended, or it stands at an `if` that has no condition.
    Ended,
    /// Another life would begin at the step, and a thread stands inside a section.
    Inside,
}

/// The first step of a schedule that can't be made. Steps count from 1, of several lives over all of them.
#[derive(Clone, Copy, PartialEq, Eq, Debug, Drop, Error)]
#[error("step {step} can't be made: {kind:?}")]
pub struct Refused {
    pub kind: RefusedKind,
    pub step: u64,
}
