//! Why bytes are no file of a format.
ghost use Rattle.std.specs.Prelude.{◌≡◌};

use ido_base::memory::OutOfMemory;
use ido_base::place::Place;
use thiserror::Error;

/// The first fault of bytes, in their order.
#[derive(Clone, Copy, Debug, PartialEq, Eq, Drop, Error)]
pub enum ReadError {
    /// The first bytes are others.
    #[error("another kind of file")]
    Magic,
    /// Another version stands at byte 8.
    #[error("another version")]
    Version,
    /// A field isn't whole. The place is the end of the bytes.
    #[error("bytes are missing")]
    Cut(Place),
    /// The field there is none that its format allows.
    #[error("a field outside its limits")]
    Field(Place),
    /// The file ends there, and more bytes follow.
    #[error("bytes past the end")]
    Rest(Place),
    /// An allocation was refused.
    #[error("out of memory")]
    Memory,
}

impl From<OutOfMemory> for ReadError {
    ghost use Rattle.file_fields.specs.declared.error.ReadError.TheVariants.{Memory as Unremembered};

    ghost from_gives = { λ _ e. e ≡ Unremembered };

    fn from(_: OutOfMemory) -> Self {
        ReadError::Memory
    }
}
