//! What a board is made with, and what its seats know. Of most of it no value is made.
use crate::journal::Entry;
use std::collections::LinkedList;
use std::snapshot::Snapshot;

/// What a board is made with.
#[derive(Drop)]
pub struct Terms<C> {
    pub opening: Snapshot<C>,
    pub seats: u32,
    /// Events at most that a seat makes.
    pub turns: u64,
    /// Events at most that the core has had.
    pub ceiling: u64,
}

/// What was known before seats met: the turns that were seen, of those of these numbers all.
pub struct Past {
    pub numbers: LinkedList<u32>,
    pub seen: LinkedList<Entry>,
}

/// What a seat knows.
pub struct Known<C> {
    pub terms: Terms<C>,
    /// The journal begins with it.
    pub seen: LinkedList<Entry>,
    /// What was known by those that met in it, where nothing was seen since.
    pub past: LinkedList<Past>,
    /// Whose turns it takes.
    pub numbers: LinkedList<u32>,
    /// How many tickets it has drawn that weren't served.
    pub drawn: u64,
    pub ticket: Option<u64>,
    pub in_turn: bool,
}

/// What a place at the table knows.
pub enum View<C> {
    Spent,
    Seated(Known<C>),
}
