//! Why bytes are no image.
ghost use Rattle.std.specs.Prelude.{◌≡◌};

use crate::schedules::ScheduleFault;
use file_fields::error::ReadError;
use ido_base::memory::OutOfMemory;
use ido_base::place::Place;

/// The first fault of bytes, in the order of these variants.
#[derive(Clone, Copy, Drop)]
pub enum ImageError {
    /// The first 8 bytes are others.
    Magic,
    /// The version, at byte 8, is another.
    Version,
    /// A field isn't whole. The place is the end of the bytes.
    Cut(Place),
    /// The source is too long, the compiler refuses it, or its variables take another number of bytes.
    Source,
    /// The element of the variable is a reference, and its number is neither that of null nor of one to an element.
    Reference { variable: u32, element: u32 },
    /// The image ends there, and more bytes follow.
    Rest(Place),
    /// The thread can't be resumed at its point.
    Point { thread: u32 },
    /// Where the thread is resumed, it holds other mutexes than its log says.
    Mask { thread: u32 },
    /// No local that is live in the register where the thread is resumed has such a number, and from 32 on in the word of the frame of that number less 32;
    /// or, of register 28, nothing that the thread may write next has this address or so many bytes, or nothing is written next and the bank tells of a write;
    /// or, of register 29, that is a reference or a local, and no such number is one that it may have.
    Slot { thread: u32, register: u8 },
    /// Both threads hold the mutex of this number.
    Shared { lock: u32, first: u32, second: u32 },
    /// The step, counted from 1 over all lives, is none that the source makes, or isn't told as it should be.
    Schedule { step: u64 },
    /// The life, counted from 1, isn't the last, and a thread stands inside a section at its end.
    Lives { life: u64 },
    /// An allocation was refused.
    Memory,
}

impl From<ReadError> for ImageError {
    ghost use Rattle.image_checks.specs.links.Errors.{of_read};

    ghost from_gives = { λ x e. e ≡ of_read x };

    fn from(error: ReadError) -> Self {
        match error {
            ReadError::Magic => ImageError::Magic,
            ReadError::Version => ImageError::Version,
            ReadError::Cut(place) => ImageError::Cut(place),
            ReadError::Field(_) => ImageError::Source,
            ReadError::Rest(place) => ImageError::Rest(place),
            ReadError::Memory => ImageError::Memory,
        }
    }
}

impl From<OutOfMemory> for ImageError {
    ghost use Rattle.image_checks.specs.declared.error.ImageError.TheVariants.{Memory as Unremembered};

    ghost from_gives = { λ _ e. e ≡ Unremembered };

    fn from(_: OutOfMemory) -> Self {
        ImageError::Memory
    }
}

impl From<ScheduleFault> for ImageError {
    ghost use Rattle.image_checks.specs.links.Errors.{of_schedule};

    ghost from_gives = { λ x e. e ≡ of_schedule x };

    fn from(error: ScheduleFault) -> Self {
        match error {
            ScheduleFault::Step(step) => ImageError::Schedule { step },
            ScheduleFault::Life(life) => ImageError::Lives { life },
            ScheduleFault::Memory => ImageError::Memory,
        }
    }
}
