//! Why a worker of a leg makes no more events.

/// Why a worker makes no more events: the first of these that holds.
#[derive(Clone, Copy, Debug, PartialEq, Eq, Drop)]
pub enum Stop {
    /// Its hart has ended, or the hart's recovery is done.
    Ended,
    /// It has made as many events as it may.
    Turns,
    /// The core has had as many events as it may.
    Moment,
}
