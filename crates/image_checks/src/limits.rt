//! Sizes of what logs hold.

/// Each bank has at least as many slots: one for each number of a register.
pub const BANK_SLOTS: u8 = 32;

/// A mask of mutexes has a bit for each number below this one.
pub const MASK_BITS: u32 = 64;

/// A local in word j of the frame is told by this number and j: the registers have those below.
pub const FIRST_FRAME_NUMBER: u8 = 32;
