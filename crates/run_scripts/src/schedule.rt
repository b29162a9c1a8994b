//! Schedules, as they are written.
ghost use Rattle.std.specs.Prelude.{◌≡◌, ◌+◌, ◌-◌, ◌*◌, ◌<◌, ◌≤◌, ◌^◌, ◌∷◌, ◌++◌, [], ℕ, List, length, drop, map, min, replicate, sum_by};
ghost use Rattle.std.specs.Prelude.{true, false, IfOk, IfErr, IfSome, IfNone, IsTrue, OnOk};
ghost use Rattle.std.specs.List.{position_or_len};
ghost use Rattle.std.specs.Str.Parse.{digits_value};
ghost use Rattle.ido_base.specs.declared.limits.TheConstants.{MOST_INPUT_BYTES};
ghost use Rattle.run_scripts.specs.Pieces.{Piece, words_at, begins_gap};
ghost use Rattle.run_scripts.specs.Schedules as s;
ghost use Rattle.run_scripts.specs.Schedules.{lives_of_words, is_digit, is_numeral, is_schedule, is_star, thread_text};
ghost use Rattle.run_scripts.specs.Schedules.{count_text, lives_from, read, Refused};
ghost use Rattle.run_scripts.specs.links.ReportViews.{steps_of};
ghost use Rattle.run_scripts.specs.links.WordLengths.{AreSoMany, fault_of, read_after};

use crate::number::{NUMBER_LIMIT, numeral};
use crate::piece::{Gap, next_piece, piece_at};
use crate::runs::{Run, push_steps};
use ido_base::limits::MOST_STEPS;
use ido_base::memory::OutOfMemory;
use ido_base::place::Place;
use std::alloc::Global;
use std::mem::replace;
use thiserror::Error;

/// Why a schedule isn't read.
#[derive(Clone, Copy, Debug, PartialEq, Eq, Drop, Error)]
pub enum ScheduleError {
    /// The word there is neither `T*N` with N at least 1 nor `schedule`.
    #[error("a word that is no run")]
    Word(Place),
    /// The number there is above 4,294,967,295.
    #[error("a number that is too great")]
    Number(Place),
    /// With the word there are more than 4,000,000 steps.
    #[error("too many steps")]
    Many(Place),
    /// An allocation was refused.
    #[error("out of memory")]
    Memory,
}

impl From<OutOfMemory> for ScheduleError {
    ghost use Rattle.run_scripts.specs.declared.schedule.ScheduleError.TheVariants.{Memory as Unremembered};

    ghost from_gives = { λ _ e. e ≡ Unremembered };

    fn from(_: OutOfMemory) -> Self {
        ScheduleError::Memory
    }
}

/// Lives as far as their schedules are read.
#[derive(Drop)]
struct Lives {
    // of those that have ended
    ended: Vec<Vec<u32>>,
    // of the one that goes on
    steps: Vec<u32>,
    // how many steps there are in all
    done: u64,
}

/// How many bytes stand before the first `*`.
fn star_position(word: &[u8]) -> usize
    ensures value { result ≡ position_or_len is_star word.now }
    ensures bound { result ≤ length word.now }
{
    word.iter().take_while(|c| **c != b'*').count()
}

/// What stands before the first `*` and after it.
fn split_at_star(word: &[u8]) -> (&[u8], &[u8])
    ensures thread { result.0.now ≡ thread_text word.now }
    ensures count { result.1.now ≡ count_text word.now }
{
    let at = star_position(word);
    if at < word.len() {
        (&word[..at], &word[at + 1..])
    } else {
        (word, &word[at..])
    }
}

/// The word begins a schedule.
fn is_schedule(word: &[u8]) -> bool
    ensures { result ≡ is_schedule word.now }
{
    word == b"schedule".as_slice()
}

/// The run that a word at a place spells after lives, where it isn't `schedule`.
fn run_of(word: &[u8], place: u32, lives: &Lives) -> Result<Run, ScheduleError>
    requires place { place + length word.now < 2 ^ 32 }
    requires done { lives.now.done ≤ MOST_STEPS }
    requires run { is_schedule word.now ≡ false }
    ensures run { IfOk result (λ r. (ws : List Piece) →
        read_after lives.now (record { place = place; bytes = word.now } ∷ ws)
        ≡ lives_from (lives.now.done + r.steps) (map steps_of lives.now.ended.items) (lives.now.steps.items ++ replicate r.steps r.thread) ws) }
    ensures bound { IfOk result (λ r. lives.now.done + r.steps ≤ MOST_STEPS) }
    ensures refused { IfErr result (λ e. IfSome (fault_of e) (λ f. (ws : List Piece) →
        read_after lives.now (record { place = place; bytes = word.now } ∷ ws) ≡ Refused f)) }
{
    let (thread_text, count_text) = split_at_star(word);
    let (Some(thread), Some(count)) = (numeral(thread_text), numeral(count_text)) else {
        return Err(ScheduleError::Word(Place(place)));
    };
    if count == 0 {
        return Err(ScheduleError::Word(Place(place)));
    }
    if thread >= NUMBER_LIMIT {
        return Err(ScheduleError::Number(Place(place)));
    }
    if count >= NUMBER_LIMIT {
        return Err(ScheduleError::Number(Place(place + thread_text.len() as u32 + 1)));
    }
    if lives.done + count > MOST_STEPS {
        return Err(ScheduleError::Many(Place(place)));
    }
    Ok(Run {
        thread: thread as u32,
        steps: count,
    })
}

/// Where the runs begin: after the first word, where that is `schedule`.
fn first_run(text: &[u8]) -> usize
    ensures runs { lives_of_words (words_at 0 text.now) ≡ lives_from 0 [] [] (words_at result (drop result text.now)) }
    ensures bound { result ≤ length text.now }
    ensures word { result < length text.now → begins_gap (drop result text.now) ≡ false }
{
    let at = next_piece(Gap::Blank, text, 0);
    if at < text.len() && piece_at(Gap::Blank, text, at) == b"schedule".as_slice() {
        next_piece(Gap::Blank, text, at + 8)
    } else {
        at
    }
}

/// The life that goes on ends, and another one begins.
fn end_life(alloc: Global, lives: &mut Lives) -> Result<(), OutOfMemory>
    ensures ended { OnOk result (map steps_of lives.new.ended.items ≡ map steps_of lives.old.ended.items ++ lives.old.steps.items ∷ []) }
    ensures steps { OnOk result (lives.new.steps.items ≡ []) }
    ensures done { OnOk result (lives.new.done ≡ lives.old.done) }
{
    let steps = replace(&mut lives.steps, Vec::new(alloc));
    lives.ended.push(steps)?;
    Ok(())
}

/// Adds a run to the life that goes on.
fn add_run(lives: &mut Lives, run: Run) -> Result<(), OutOfMemory>
    requires { lives.old.done + run.steps ≤ MOST_STEPS }
    ensures ended { OnOk result (lives.new.ended.items ≡ lives.old.ended.items) }
    ensures steps { OnOk result (lives.new.steps.items ≡ lives.old.steps.items ++ replicate run.steps run.thread) }
    ensures done { OnOk result (lives.new.done ≡ lives.old.done + run.steps) }
{
    push_steps(&mut lives.steps, run.steps, run.thread)?;
    lives.done += run.steps;
    Ok(())
}

/// Takes a word at a place: with `schedule` a life ends, and else it is a run of the one that goes on.
fn take_word(alloc: Global, lives: &mut Lives, word: &[u8], place: u32) -> Result<(), ScheduleError>
    requires place { place + length word.now < 2 ^ 32 }
    requires done { lives.old.done ≤ MOST_STEPS }
    requires many { AreSoMany lives.old }
    ensures taken { OnOk result ((ws : List Piece) →
        read_after lives.old (record { place = place; bytes = word.now } ∷ ws) ≡ read_after lives.new ws) }
    ensures bound { OnOk result (lives.new.done ≤ MOST_STEPS) }
    ensures many { OnOk result (AreSoMany lives.new) }
    ensures refused { IfErr result (λ e. IfSome (fault_of e) (λ f. (ws : List Piece) →
        read_after lives.old (record { place = place; bytes = word.now } ∷ ws) ≡ Refused f)) }
{
    if is_schedule(word) {
        end_life(alloc, lives)?;
        return Ok(());
    }
    let run = run_of(word, place, lives)?;
    add_run(lives, run)?;
    Ok(())
}

/// The schedules of all lives, where the one that goes on is the last.
fn all_lives(lives: Lives) -> Result<Vec<Vec<u32>>, OutOfMemory>
    ensures { IfOk result (λ all. map steps_of all.items ≡ map steps_of lives.ended.items ++ lives.steps.items ∷ []) }
{
    let Lives {
        mut ended,
        steps,
        ..
    } = lives;
    ended.push(steps)?;
    Ok(ended)
}

/// The schedules of lives, one for each: words `T*N`, each of them N steps of thread T, between spaces and line ends. The first word may be
/// `schedule`, and each other word `schedule` begins the next life. A CR ends a line only before an LF.
pub fn read_schedule(alloc: Global, text: &[u8]) -> Result<Vec<Vec<u32>>, ScheduleError>
    requires { length text.now ≤ MOST_INPUT_BYTES }
    ensures lives { IfOk result (λ lives. read text.now ≡ s.Lives (map steps_of lives.items)) }
    ensures few { IfOk result (λ lives. sum_by length (map steps_of lives.items) ≤ MOST_STEPS) }
    ensures refused { IfErr result (λ e. IfSome (fault_of e) (λ f. read text.now ≡ Refused f)) }
{
    let ended = Vec::new(alloc);
    let steps = Vec::new(alloc);
    let mut lives = Lives {
        ended,
        steps,
        done: 0,
    };
    let mut at = first_run(text);
    while at < text.len() {
        let word = piece_at(Gap::Blank, text, at);
        take_word(alloc, &mut lives, word, at as u32)?;
        at = next_piece(Gap::Blank, text, at + word.len());
    }
    let all = all_lives(lives)?;
    Ok(all)
}
