//! Limits of a compiled program, beside those of every program, and what its log has to do with its file.
ghost use Rattle.std.specs.Prelude.{◌≡◌};
ghost use Rattle.object_format.specs.Contents.{version_of};

use log_schemes::log::Log;

/// Code words of a thread at least.
pub const LEAST_WORDS: u32 = 1;

/// The version of its file.
pub fn version_of(log: Log) -> u32
    ensures { result ≡ version_of log }
{
    match log {
        Log::V1 => 1,
        Log::V2 => 2,
        Log::Justdo => 3,
    }
}
