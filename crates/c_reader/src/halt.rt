//! Why the parser stops early.
use std::alloc::{AllocError, AllocFailed};

/// Why nothing was read.
#[derive(Clone, Copy, Drop)]
pub enum Halt {
    /// The next token is wrong, or the tokens end too early.
    Wrong,
    /// Memory has run out.
    Memory,
}

impl From<AllocError> for Halt {
    ghost use Rattle.std.specs.Prelude.{◌≡◌};
    ghost use Rattle.c_reader.specs.declared.halt.Halt.TheVariants as halt;

    ghost from_gives = { λ _ h. h ≡ halt.Memory };

    fn from(_: AllocError) -> Halt {
        Halt::Memory
    }
}

impl<T: Drop> From<AllocFailed<T>> for Halt {
    ghost use Rattle.std.specs.Prelude.{◌≡◌};
    ghost use Rattle.c_reader.specs.declared.halt.Halt.TheVariants as halt;

    ghost from_gives = { λ _ h. h ≡ halt.Memory };

    fn from(_: AllocFailed<T>) -> Halt {
        Halt::Memory
    }
}
