//! Fields of an object. Each reader answers what it has read and the bytes after it.
ghost use Rattle.file_fields.specs.links.ReaderResults.{ViewsFault};
ghost use Rattle.object_format.specs.ObjectDecoder.{initial_at, log_at, word_at};

use file_fields::error::ReadError;
use file_fields::reading::{bytes_at, number_at, number_within, place_of};
use ido_base::limits::{MOST_VARIABLE_BYTES, WORD_BYTES};
use log_schemes::log::Log;
use rv64_isa::word::decode;

/// The log of a version.
#[tactic(auto, unfolding(crate::specs::ObjectDecoder::log_at))]
pub fn log_at(total: u32, bytes: &[u8]) -> Result<(Log, &[u8]), ReadError>
    ensures { ViewsFault (λ x. (x.0, x.1.now)) result (log_at total bytes.now) }
{
    let (version, rest) = number_at(total, bytes)?;
    if version == 1 {
        Ok((Log::V1, rest))
    } else if version == 2 {
        Ok((Log::V2, rest))
    } else if version == 3 {
        Ok((Log::Justdo, rest))
    } else {
        Err(ReadError::Version)
    }
}

/// How many initial bytes there are, and these.
#[tactic(auto, unfolding(crate::specs::ObjectDecoder::initial_at))]
pub fn initial_at(total: u32, bytes: &[u8]) -> Result<(&[u8], &[u8]), ReadError>
    ensures { ViewsFault (λ x. (x.0.now, x.1.now)) result (initial_at total bytes.now) }
{
    let (count, rest) = number_within(total, 0, MOST_VARIABLE_BYTES, bytes)?;
    if count % WORD_BYTES == 0 {
        bytes_at(total, count as usize, rest)
    } else {
        Err(ReadError::Field(place_of(total, bytes)))
    }
}

/// The word of an instruction.
#[tactic(auto, unfolding(crate::specs::ObjectDecoder::word_at))]
pub fn word_at(total: u32, bytes: &[u8]) -> Result<(u32, &[u8]), ReadError>
    ensures { ViewsFault (λ x. (x.0, x.1.now)) result (word_at total bytes.now) }
{
    let (word, rest) = number_at(total, bytes)?;
    if decode(word).is_some() {
        Ok((word, rest))
    } else {
        Err(ReadError::Field(place_of(total, bytes)))
    }
}
