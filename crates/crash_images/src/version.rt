//! Versions of images, and the log that each is of.
ghost use Rattle.std.specs.Prelude.{◌≡◌, ◌≤◌};
ghost use Rattle.crash_images.specs.Contents.{log_of, number_of, written_as};

use log_schemes::log::Log;

/// The most lives: four bytes tell how many there are.
pub const MOST_LIVES: u32 = 4_294_967_295;

/// A version of images.
#[derive(Clone, Copy, Debug, PartialEq, Eq, Drop)]
pub enum ImageVersion {
    /// Of the first log, and of one life.
    First,
    /// Of the second log, and of one life. None is written.
    Second,
    /// Of the second log, and of one life or more.
    Third,
    /// Of the log that keeps each write, and of one life or more.
    Fourth,
}

impl ImageVersion {
    /// The number that stands in the file.
    pub fn number(self) -> u32
        ensures is { result ≡ number_of self }
        ensures few { result ≤ 4 }
    {
        match self {
            ImageVersion::First => 1,
            ImageVersion::Second => 2,
            ImageVersion::Third => 3,
            ImageVersion::Fourth => 4,
        }
    }

    /// The log that it is of.
    pub fn log(self) -> Log
        ensures { result ≡ log_of self }
    {
        match self {
            ImageVersion::First => Log::V1,
            ImageVersion::Second | ImageVersion::Third => Log::V2,
            ImageVersion::Fourth => Log::Justdo,
        }
    }
}

/// The version in which images of a log are written.
pub fn written_as(log: Log) -> ImageVersion
    ensures { result ≡ written_as log }
{
    match log {
        Log::V1 => ImageVersion::First,
        Log::V2 => ImageVersion::Third,
        Log::Justdo => ImageVersion::Fourth,
    }
}
