//! How a bank keeps the locks held.

/// How a bank keeps the locks held.
#[derive(Clone, Copy, Debug, PartialEq, Eq, Drop)]
pub enum Keeping {
    /// Slot 0 has a mask of them: bit i is set where lock i is held, of locks 0 to 63.
    Masked,
    /// Slot 0 has how many there are, and each stands in a slot of its own; 16 at most, of any numbers.
    Listed,
}
