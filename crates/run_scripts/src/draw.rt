//! Drawn runs: events by the words of a generator.
ghost use Rattle.std.specs.Prelude.{◌≡◌, ◌+◌, ◌*◌, ◌<◌, ◌≤◌, ◌^◌, ◌++◌, ◌∷◌, [], ◌==◌, ℕ, count_by, replicate, OnOk, IfOk};
ghost use Rattle.machine_events.specs.declared.event.Event.TheVariants as e;
ghost use Rattle.ido_base.specs.declared.limits.TheConstants.{MOST_THREADS, VARIABLE_LINES};
ghost use Rattle.log_schemes.specs.Layout.{log_lines};
ghost use Rattle.run_scripts.specs.Draws.{crashes_at, drawn_event, drawn_line, drawn_mask, drawn_run};

use ido_base::limits::VARIABLE_LINES;
use ido_base::memory::OutOfMemory;
use log_schemes::log::Log;
use machine_events::event::Event;
use rand_core::SeedableRng;
use rand_core::utils::NextWord;
use rand_xoshiro::SplitMix64;
use std::alloc::Global;

/// Lines of the logs of so many threads.
pub(crate) fn log_lines(log: Log, threads: u32) -> u64
    ensures is { result ≡ log_lines log * threads }
    ensures some { threads ≤ result }
    ensures few { result ≤ 32 * threads }
{
    u64::from(log.lines()) * u64::from(threads)
}

/// The line that a word draws.
pub(crate) fn drawn_line(word: u64, log: Log, threads: u32, lines: u32) -> u32
    requires some { 0 < threads }
    requires threads { threads ≤ MOST_THREADS }
    requires lines { lines ≤ VARIABLE_LINES }
    ensures { result ≡ drawn_line log threads lines word }
{
    let own = u64::from(lines);
    let drawn = (word >> 8) % (own + log_lines(log, threads));
    let line = if drawn < own {
        drawn
    } else {
        VARIABLE_LINES + (drawn - own)
    };
    line as u32
}

/// The words of its line that a word draws.
pub(crate) fn drawn_mask(word: u64) -> u32
    ensures { result ≡ drawn_mask word }
{
    ((word >> 40) % 256) as u32
}

/// The event that a word draws.
#[tactic(auto, unfolding(crate::specs::Draws::drawn_event))]
fn drawn_event(word: u64, log: Log, threads: u32, lines: u32) -> Event
    requires some { 0 < threads }
    requires threads { threads ≤ MOST_THREADS }
    requires lines { lines ≤ VARIABLE_LINES }
    ensures { result ≡ drawn_event log threads lines word }
{
    if word % 16 == 15 {
        Event::Evict {
            line: drawn_line(word, log, threads, lines),
            mask: drawn_mask(word),
        }
    } else {
        Event::Step(((word >> 8) % u64::from(threads)) as u32)
    }
}

/// Adds an event.
fn push(events: &mut Vec<Event>, event: Event) -> Result<(), OutOfMemory>
    ensures { OnOk result (events.new.items ≡ events.old.items ++ event ∷ []) }
{
    events.push(event)?;
    Ok(())
}

/// Adds so many crashes.
fn push_crashes(events: &mut Vec<Event>, count: usize) -> Result<(), OutOfMemory>
    ensures { OnOk result (events.new.items ≡ events.old.items ++ replicate count e.Crash) }
{
    for _ in 0..count {
        push(events, Event::Crash)?;
    }
    Ok(())
}

/// How many of the crash words are this number.
fn count_at(crashes: &[u64], draws: u64) -> usize
    ensures { result ≡ count_by (λ c. c == draws) crashes.now }
{
    crashes.iter().filter(|c| **c == draws).count()
}

/// The least of the crash words that is no less than this number, or the greatest number where there is none.
fn next_crash(crashes: &[u64], draws: u64) -> u64
    ensures { (k : ℕ) → draws ≤ k → k < result → count_by (λ c. c == k) crashes.now ≡ 0 }
{
    let mut next = u64::MAX;
    for crash in crashes {
        if *crash >= draws {
            next = next.min(*crash);
        }
    }
    next
}

/// Adds the crashes after so many draws, where none come from there on before the next one. Answers the next one after them.
fn push_due_crashes(
    events: &mut Vec<Event>,
    crashes: &[u64],
    draws: u64,
    next: u64,
) -> Result<u64, OutOfMemory>
    requires more { draws + 1 < 2 ^ 64 }
    requires quiet { (k : ℕ) → draws ≤ k → k < next → count_by (λ c. c == k) crashes.now ≡ 0 }
    ensures events { OnOk result (events.new.items ≡ events.old.items ++ crashes_at crashes.now draws) }
    ensures quiet { IfOk result (λ n. (k : ℕ) → draws + 1 ≤ k → k < n → count_by (λ c. c == k) crashes.now ≡ 0) }
{
    if draws < next {
        return Ok(next);
    }
    push_crashes(events, count_at(crashes, draws))?;
    Ok(next_crash(crashes, draws + 1))
}

/// The events of a drawn run of so many threads, which log so, at so many lines of variables, by the words of SplitMix64 that the seed
/// gives: so many draws, and after draw k a crash for each crash word k, those of the words 0 before the first draw. Without threads
/// there are none.
#[tactic(auto, unfolding(crate::specs::Draws::drawn_run))]
pub fn draw(
    alloc: Global,
    seed: u64,
    turns: u64,
    crashes: &[u64],
    log: Log,
    threads: u32,
    lines: u32,
) -> Result<Vec<Event>, OutOfMemory>
    requires threads { threads ≤ MOST_THREADS }
    requires lines { lines ≤ VARIABLE_LINES }
    ensures { IfOk result (λ events. events.items ≡ drawn_run seed turns crashes.now log threads lines) }
{
    let mut events = Vec::new(alloc);
    if threads == 0 {
        return Ok(events);
    }
    let mut words = SplitMix64::seed_from_u64(seed);
    let mut next = 0;
    for draws in 0..turns {
        next = push_due_crashes(&mut events, crashes, draws, next)?;
        let word = words.next_word();
        push(&mut events, drawn_event(word, log, threads, lines))?;
    }
    push_crashes(&mut events, count_at(crashes, turns))?;
    Ok(events)
}
