//! Bytes read as an image, in calls: the version tells which log it is of, and how many bytes the variables take,
//! and how many threads there are, is known from the source.
ghost use Rattle.std.specs.Prelude.{◌≡◌, ◌≤◌, ◌*◌, ◌%◌, ◌++◌, ℕ, List, length, map, IfOk, Ok};
ghost use Rattle.std.specs.Result.{IsOkAnd};
ghost use Rattle.ido_base.specs.declared.limits.TheConstants.{MOST_INPUT_BYTES};
ghost use Rattle.file_fields.specs.Fields.{repeated, word_at};
ghost use Rattle.file_fields.specs.links.ReaderResults.{ViewsFault, Gives};
ghost use Rattle.run_scripts.specs.Runs.{Run as SpelledRun};
ghost use Rattle.run_scripts.specs.links.RunViews.{run_of};
ghost use Rattle.file_fields.specs.Numbers.{number};
ghost use Rattle.crash_images.specs.Contents.{State as SpelledState, AreVariables, IsState, number_of, word_bytes, words_of};
ghost use Rattle.crash_images.specs.ImageEncoder.{logs_text, magic, source_text, variables_text};
ghost use Rattle.crash_images.specs.ImageDecoder.{count_at, known, life_at, lives_at, logs_at, run_at, size_at, source_at, variables_at, version_in};
ghost use Rattle.crash_images.specs.links.Views.{life_of, state_of};

use crate::state::State;
use crate::version::{ImageVersion, MOST_LIVES};
use file_fields::error::ReadError;
use file_fields::reading::{
    Reader, bytes_at, magic_at, number_at, number_within, place_of, repeated, version_at, word_at,
};
use ido_base::limits::{MOST_SOURCE_BYTES, WORD_BYTES};
use run_scripts::runs::Run;
use std::alloc::Global;

/// Reads durable words.
#[derive(Drop)]
struct WordReader {
    total: u32,
}

impl Reader for WordReader {
    type Item = u64;

    ghost Value = { ℕ };

    ghost view = { λ word. word };

    ghost reading = { λ reader. word_at reader.total };

    fn read<'a>(&self, bytes: &'a [u8]) -> Result<(u64, &'a [u8]), ReadError> {
        word_at(self.total, bytes)
    }
}

/// The first `count` durable words, and the bytes after them.
fn words_at(
    alloc: Global,
    total: u32,
    count: u64,
    bytes: &[u8],
) -> Result<(Vec<u64>, &[u8]), ReadError>
    ensures { Gives (λ x. (x.0.items, x.1.now)) result (repeated (word_at total) count bytes.now) }
{
    repeated(alloc, &WordReader { total }, count, bytes)
}

/// A run of the schedule.
#[tactic(auto, unfolding(crate::specs::ImageDecoder::run_at))]
fn run_at(total: u32, bytes: &[u8]) -> Result<(Run, &[u8]), ReadError>
    ensures { ViewsFault (λ x. (run_of x.0, x.1.now)) result (run_at total bytes.now) }
{
    let (thread, rest) = number_at(total, bytes)?;
    let (steps, rest) = number_at(total, rest)?;
    let run = Run {
        thread,
        steps: u64::from(steps),
    };
    Ok((run, rest))
}

/// Reads runs.
#[derive(Drop)]
struct RunReader {
    total: u32,
}

impl Reader for RunReader {
    type Item = Run;

    ghost Value = { SpelledRun };

    ghost view = { run_of };

    ghost reading = { λ reader. run_at reader.total };

    fn read<'a>(&self, bytes: &'a [u8]) -> Result<(Run, &'a [u8]), ReadError> {
        run_at(self.total, bytes)
    }
}

/// The first `count` runs, and the bytes after them.
fn runs_at(
    alloc: Global,
    total: u32,
    count: u32,
    bytes: &[u8],
) -> Result<(Vec<Run>, &[u8]), ReadError>
    ensures { Gives (λ x. (map run_of x.0.items, x.1.now)) result (repeated (run_at total) count bytes.now) }
{
    repeated(alloc, &RunReader { total }, u64::from(count), bytes)
}

/// The runs of a life.
#[tactic(auto, unfolding(crate::specs::ImageDecoder::life_at))]
fn life_at(alloc: Global, total: u32, bytes: &[u8]) -> Result<(Vec<Run>, &[u8]), ReadError>
    ensures { Gives (λ x. (life_of x.0, x.1.now)) result (life_at total bytes.now) }
{
    let (count, rest) = number_at(total, bytes)?;
    runs_at(alloc, total, count, rest)
}

/// Reads lives.
#[derive(Drop)]
struct LifeReader {
    alloc: Global,
    total: u32,
}

impl Reader for LifeReader {
    type Item = Vec<Run>;

    ghost Value = { List SpelledRun };

    ghost view = { life_of };

    ghost reading = { λ reader. life_at reader.total };

    fn read<'a>(&self, bytes: &'a [u8]) -> Result<(Vec<Run>, &'a [u8]), ReadError> {
        life_at(self.alloc, self.total, bytes)
    }
}

/// The first `count` lives, and the bytes after them.
fn all_at(
    alloc: Global,
    total: u32,
    count: u32,
    bytes: &[u8],
) -> Result<(Vec<Vec<Run>>, &[u8]), ReadError>
    ensures { Gives (λ x. (map life_of x.0.items, x.1.now)) result (repeated (life_at total) count bytes.now) }
{
    repeated(alloc, &LifeReader { alloc, total }, u64::from(count), bytes)
}

/// How many lives there are.
fn count_at(version: ImageVersion, total: u32, bytes: &[u8]) -> Result<(u32, &[u8]), ReadError>
    ensures { ViewsFault (λ x. (x.0, x.1.now)) result (count_at version total bytes.now) }
{
    match version {
        ImageVersion::First | ImageVersion::Second => Ok((1, bytes)),
        ImageVersion::Third | ImageVersion::Fourth => { number_within(total, 1, MOST_LIVES, bytes) }
    }
}

/// The lives, after which nothing stands.
#[tactic(auto, unfolding(crate::specs::ImageDecoder::lives_at))]
fn lives_at(
    alloc: Global,
    version: ImageVersion,
    total: u32,
    bytes: &[u8],
) -> Result<Vec<Vec<Run>>, ReadError>
    ensures { Gives (λ x. map life_of x.items) result (lives_at version total bytes.now) }
{
    let (count, rest) = count_at(version, total, bytes)?;
    let (lives, rest) = all_at(alloc, total, count, rest)?;
    if !rest.is_empty() {
        return Err(ReadError::Rest(place_of(total, rest)));
    }
    Ok(lives)
}

/// Words of the logs of so many threads.
fn log_words(version: ImageVersion, threads: u32) -> u64
    ensures { result ≡ words_of version * threads }
{
    u64::from(version.log().words()) * u64::from(threads)
}

/// The version of a number, where it isn't after the newest.
fn known(newest: ImageVersion, number: u32) -> Result<ImageVersion, ReadError>
    ensures { ViewsFault (λ x. x) result (known newest number) }
{
    if number == 1 {
        return Ok(ImageVersion::First);
    }
    if number == 2 && newest.number() >= 2 {
        return Ok(ImageVersion::Second);
    }
    if number == 3 && newest.number() >= 3 {
        return Ok(ImageVersion::Third);
    }
    if number == 4 && newest.number() >= 4 {
        return Ok(ImageVersion::Fourth);
    }
    Err(ReadError::Version)
}

/// The version of all bytes, or their first fault up to it.
#[tactic(auto, unfolding(crate::specs::ImageDecoder::version_in))]
fn version_in(bytes: &[u8], newest: ImageVersion) -> Result<ImageVersion, ReadError>
    requires { length bytes.now ≤ MOST_INPUT_BYTES }
    ensures { ViewsFault (λ x. x) result (version_in newest bytes.now) }
{
    let total = bytes.len() as u32;
    let rest = magic_at(total, b"IDO-IMG\n", bytes)?;
    let (number, _) = number_at(total, rest)?;
    known(newest, number)
}

/// How many bytes the variables take: so many.
#[tactic(auto, unfolding(crate::specs::ImageDecoder::size_at))]
fn size_at(total: u32, size: u32, bytes: &[u8]) -> Result<&[u8], ReadError>
    ensures { ViewsFault (λ x. x.now) result (size_at total size bytes.now) }
{
    let (_, rest) = number_within(total, size, size, bytes)?;
    Ok(rest)
}

/// The source of all bytes and what stands after it, or their first fault.
#[tactic(auto, unfolding(crate::specs::ImageDecoder::source_at))]
fn source_at(bytes: &[u8], version: ImageVersion) -> Result<(&[u8], &[u8]), ReadError>
    requires { length bytes.now ≤ MOST_INPUT_BYTES }
    ensures { ViewsFault (λ x. (x.0.now, x.1.now)) result (source_at version bytes.now) }
{
    let total = bytes.len() as u32;
    let rest = magic_at(total, b"IDO-IMG\n", bytes)?;
    let rest = version_at(total, version.number(), rest)?;
    let (size, rest) = number_within(total, 0, MOST_SOURCE_BYTES as u32, rest)?;
    bytes_at(total, size as usize, rest)
}

/// The words of the variables, which take so many bytes, and the bytes after them.
#[tactic(auto, unfolding(crate::specs::ImageDecoder::variables_at))]
fn variables_at(
    alloc: Global,
    total: u32,
    size: u32,
    bytes: &[u8],
) -> Result<(Vec<u64>, &[u8]), ReadError>
    ensures { Gives (λ x. (x.0.items, x.1.now)) result (variables_at total size bytes.now) }
{
    let rest = size_at(total, size, bytes)?;
    words_at(alloc, total, u64::from(size / WORD_BYTES), rest)
}

/// The state with these words of variables, or the first fault of what stands after them.
#[tactic(auto, unfolding(crate::specs::ImageDecoder::logs_at))]
fn logs_at(
    alloc: Global,
    total: u32,
    bytes: &[u8],
    version: ImageVersion,
    threads: u32,
    variables: Vec<u64>,
) -> Result<State, ReadError>
    ensures { Gives state_of result (logs_at version total threads variables.items bytes.now) }
{
    let (logs, rest) = words_at(alloc, total, log_words(version, threads), bytes)?;
    let lives = lives_at(alloc, version, total, rest)?;
    Ok(State {
        variables,
        logs,
        lives,
    })
}

/// The version of the image that bytes spell, where it isn't after the newest that is asked for.
///
/// The bytes begin with 8 bytes `IDO-IMG` and LF, and the number of the version in four bytes, little-endian.
pub fn read_version(bytes: &[u8], newest: ImageVersion) -> Result<ImageVersion, ReadError>
    requires short { length bytes.now ≤ MOST_INPUT_BYTES }
    // What is no newer and is spelled so is read.
    ensures only { (v : ImageVersion) (rest : List ℕ) → number_of v ≤ number_of newest → bytes.now ≡ magic ++ number (number_of v) ++ rest →
        IsOkAnd result (λ x. x ≡ v) }
    // Which fault it is: the first in the order of the bytes.
    ensures exact { ViewsFault (λ x. x) result (version_in newest bytes.now) }
{
    version_in(bytes, newest)
}

/// The source of the image of a version that bytes spell, and the bytes after it.
///
/// Numbers are of four bytes, little-endian: 8 bytes `IDO-IMG` and LF, the number of the version, the number of
/// bytes of the source, at most 1,048,576, and these.
pub fn read_source(bytes: &[u8], version: ImageVersion) -> Result<(&[u8], &[u8]), ReadError>
    requires short { length bytes.now ≤ MOST_INPUT_BYTES }
    // What is read is spelled so, and isn't too long.
    ensures found { IfOk result (λ x. (length x.0.now ≤ MOST_SOURCE_BYTES) × (bytes.now ≡ source_text version x.0.now ++ x.1.now)) }
    // What isn't too long and is spelled so is read.
    ensures only { (s rest : List ℕ) → length s ≤ MOST_SOURCE_BYTES → bytes.now ≡ source_text version s ++ rest →
        IsOkAnd result (λ x. (x.0.now ≡ s) × (x.1.now ≡ rest)) }
    // Which fault it is: the first in the order of the bytes.
    ensures exact { ViewsFault (λ x. (x.0.now, x.1.now)) result (source_at version bytes.now) }
{
    source_at(bytes, version)
}

/// The durable words of the variables, which stand after the source, of an image of so many bytes in all, where the source's variables take `size`
/// bytes; and the bytes after them.
///
/// Four bytes, little-endian, are the number of bytes of the variables. Words are of eight bytes, little-endian.
pub fn read_variables(
    alloc: Global,
    total: u32,
    rest: &[u8],
    size: u32,
) -> Result<(Vec<u64>, &[u8]), ReadError>
    requires whole { size % word_bytes ≡ 0 }
    // What is read is spelled so, and fits the source.
    ensures found { IfOk result (λ x. AreVariables size x.0.items × (rest.now ≡ variables_text x.0.items ++ x.1.now)) }
    // What fits the source and is spelled so is read, unless memory runs out.
    ensures only { (variables after : List ℕ) → AreVariables size variables → rest.now ≡ variables_text variables ++ after →
        Gives {Y = List ℕ × List ℕ} (λ x. (x.0.items, x.1.now)) result (Ok (variables, after)) }
    // Which fault it is: the first in the order of the bytes.
    ensures exact { Gives (λ x. (x.0.items, x.1.now)) result (variables_at total size rest.now) }
{
    variables_at(alloc, total, size, rest)
}

/// What stands after the durable words of the variables, and these, of an image of a version and of so many bytes in all, whose source has so many threads.
///
/// Numbers are of four bytes, little-endian: the durable words of the logs, as many for each thread as the version's log has, in versions 3 and 4 the number of
/// lives, and of each life the number of runs, and of each run the thread and how many steps it took. Words are of eight bytes, little-endian.
pub fn read_logs(
    alloc: Global,
    total: u32,
    rest: &[u8],
    version: ImageVersion,
    threads: u32,
    variables: Vec<u64>,
) -> Result<State, ReadError>
    // What is read is spelled so, and fits the source where the variables do.
    ensures found { IfOk result (λ state. (state.variables.items ≡ variables.items)
        × ((size : ℕ) → AreVariables size variables.items → IsState version size threads (state_of state))
        × (rest.now ≡ logs_text version (state_of state))) }
    // What fits the source and is spelled so is read, unless memory runs out.
    ensures only { (size : ℕ) (s : SpelledState) → s.variables ≡ variables.items → IsState version size threads s → rest.now ≡ logs_text version s →
        Gives state_of result (Ok s) }
    // Which fault it is: the first in the order of the bytes.
    ensures exact { Gives state_of result (logs_at version total threads variables.items rest.now) }
{
    logs_at(alloc, total, rest, version, threads, variables)
}
