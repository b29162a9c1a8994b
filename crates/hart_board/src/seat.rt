//! Seats of a board, notes of what they have seen, and what their turns come to.
ghost use Rattle.std.specs.Prelude.{◌≡◌};
ghost use Rattle.hart_board.specs.Seats.{number};

use crate::core_turn::Ahead;
use crate::rule::Place;
use machine_events::event::Reply;

/// A seat of a board, whose hart has its number. It takes no turns but in calls of that board.
#[derive(Drop)]
pub struct Seat<C, L> {
    pub(crate) place: Place<C>,
    pub(crate) number: u32,
    pub(crate) turns: u64,
    pub(crate) ceiling: u64,
    /// How many events it has made.
    pub(crate) made: u64,
    pub(crate) ticket: Option<u64>,
    /// What runs ahead of its hart.
    pub(crate) local: Option<Ahead<L>>,
}

impl<C, L> Seat<C, L> {
    /// Its number, which is its hart's.
    pub fn number(&self) -> u32
        ensures { result ≡ number self.now }
    {
        self.number
    }
}

/// What a seat had seen, to be told to another one.
#[derive(Drop)]
pub struct Note<C> {
    pub(crate) place: Place<C>,
}

/// What a turn has come to.
#[derive(Clone, Copy, Debug, PartialEq, Eq, Drop)]
pub enum Turn {
    /// So many events were made, and the last one was replied to so.
    Did { events: u64, last: Reply },
    /// There is nothing more to do.
    Over,
}

/// What a try at a turn has come to.
#[derive(Clone, Copy, Debug, PartialEq, Eq, Drop)]
pub enum TryTurn {
    /// So many events were made, and the last one was replied to so.
    Did { events: u64, last: Reply },
    /// There is nothing more to do.
    Over,
    /// The seat's ticket isn't served yet: so many turns come before it, so many of them were taken, both modulo 2^64.
    Later { ticket: u64, serving: u64 },
}
