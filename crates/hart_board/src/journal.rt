//! Turns in a journal. No value of one is made: a board keeps none.
use machine_events::event::{Event, Reply};
use std::collections::LinkedList;

/// A turn in the journal of a board: the seat that took it, what it did, and the core's reply to the last event.
pub struct Entry {
    pub seat: u32,
    pub events: LinkedList<Event>,
    pub last: Option<Reply>,
}
