//! Where a hart stands between its start, a crash and its end.

/// The phase of a hart.
#[derive(Clone, Copy, Debug, PartialEq, Eq, Drop)]
pub enum Phase {
    /// In recovery: the hart takes the locks that its record names.
    Take,
    /// In recovery: the hart waits until no hart takes locks.
    Wait,
    /// In recovery: the hart is about to set its registers and its pc.
    Resume,
    /// The hart executes instructions.
    Run,
    /// The hart's recovery is done, or it had nothing to recover.
    Done,
    /// The hart has ended by ECALL.
    Ended,
}
