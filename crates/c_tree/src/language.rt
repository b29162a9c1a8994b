//! Which of its languages a text is in.

/// Locks that a thread holds at once at most, where there are arrays of mutexes.
pub const MOST_HELD: u32 = 16;

/// A language of sources.
#[derive(Clone, Copy, PartialEq, Eq, Debug)]
pub enum Language {
    /// Each mutex guards whole variables.
    Plain,
    /// There are arrays of mutexes, whose elements have keys.
    Full,
}
