//! The rules of the source language.

/// A rule that a refused text breaks.
#[derive(Clone, Copy, PartialEq, Eq, Debug)]
pub enum Rule {
    /// A byte that begins no token, or a comment that never ends.
    Byte,
    /// A number that isn't spelled as one, or that none of its kinds holds.
    Number,
    /// A token that the grammar has no place for.
    Syntax,
    /// Nesting past 128.
    High,
    /// A name that isn't known.
    Unknown,
    /// A second declaration of a name in one scope.
    Twice,
    /// A name of another sort than its place asks for.
    WrongSort,
    /// A wrong number of arguments or of initialisers.
    Count,
    /// A function with a result that returns none, or one without that returns one.
    Return,
    /// A ninth thread.
    Threads,
    /// More mutexes than there may be.
    Mutexes,
    /// Variables past 65,536 bytes.
    Bytes,
    /// An array of no elements, or of more than 4,096.
    Length,
    /// An index that may lie outside its array.
    Index,
    /// A reference that may be null where its element is named.
    Null,
    /// A call that leads back to its own function.
    Recursion,
    /// A thread whose code may be too long.
    Code,
    /// A variable that is used while its mutex isn't held.
    Unheld,
    /// A mutex that is locked while it is held.
    Again,
    /// A mutex that is unlocked while it isn't held.
    NotHeld,
    /// Paths that meet with different mutexes held.
    Join,
    /// A thread that ends with a mutex held.
    EndHeld,
    /// A local that a key names is assigned while the mutex of that key is held.
    Frozen,
    /// A mutex that is locked while as many are held as may be.
    Held,
    /// More locals alive at once than there are registers for them.
    Locals,
    /// An expression that needs too many temporaries.
    Temporaries,
}
