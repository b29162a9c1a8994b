//! Journals of runs, as inputs that play them again.
ghost use Rattle.std.specs.Prelude.{◌≡◌, ◌+◌, ◌<◌, ◌≤◌, ◌++◌, ◌∷◌, [], length, flat_map, OnOk, IfOk, if◌then◌else◌};
ghost use Rattle.run_scripts.specs.Reports.{line};
ghost use Rattle.run_scripts.specs.declared.script.Command.TheVariants as c;
ghost use Rattle.std.specs.List.{prefix_len};
ghost use Rattle.run_scripts.specs.Journals.{commands_of, command_text, ends_line, journal_text};
ghost use Rattle.run_scripts.specs.links.JournalSteps.{is_step_of};

use crate::report::put;
use crate::script::Command;
use ido_base::memory::OutOfMemory;
use machine_events::event::Event;
use std::alloc::Global;

/// How many events at the front are steps of this hart.
fn step_count(events: &[Event], hart: u32) -> usize
    ensures value { result ≡ prefix_len (is_step_of hart) events.now }
    ensures bound { result ≤ length events.now }
{
    events
        .iter()
        .take_while(|event| matches!(event, Event::Step(other) if *other == hart))
        .count()
}

/// Adds the line of steps of a hart.
#[tactic(auto, unfolding(crate::specs::Journals::command_text))]
fn put_steps(alloc: Global, text: &mut Vec<u8>, hart: u32, count: usize) -> Result<(), OutOfMemory>
    ensures { OnOk result (text.new.items ≡ text.old.items ++ command_text (c.Steps hart count)) }
{
    let line = format!(in alloc; "s {hart} {count}\n")?;
    put(text, line.as_bytes())
}

/// Adds the line of an eviction.
#[tactic(auto, unfolding(crate::specs::Journals::command_text))]
fn put_eviction(
    alloc: Global,
    text: &mut Vec<u8>,
    evicted: u32,
    mask: u32,
) -> Result<(), OutOfMemory>
    ensures { OnOk result (text.new.items ≡ text.old.items ++ command_text (c.Evict evicted mask)) }
{
    let line = format!(in alloc; "e {evicted} {mask}\n")?;
    put(text, line.as_bytes())
}

/// Adds the line of a crash.
#[tactic(auto, unfolding(crate::specs::Journals::command_text))]
fn put_crash(text: &mut Vec<u8>) -> Result<(), OutOfMemory>
    ensures { OnOk result (text.new.items ≡ text.old.items ++ command_text c.Crash) }
{
    put(text, b"c\n")
}

/// Adds the line of a start.
#[tactic(auto, unfolding(crate::specs::Journals::command_text))]
fn put_start(text: &mut Vec<u8>) -> Result<(), OutOfMemory>
    ensures { OnOk result (text.new.items ≡ text.old.items ++ command_text c.Start) }
{
    put(text, b"r\n")
}

/// Adds the line of the first events, at least one of them. Answers those after them.
fn put_first<'a>(
    alloc: Global,
    text: &mut Vec<u8>,
    event: Event,
    after: &'a [Event],
) -> Result<&'a [Event], OutOfMemory>
    ensures lines { IfOk result (λ rest. text.new.items ++ flat_map command_text (commands_of rest.now)
        ≡ text.old.items ++ flat_map command_text (commands_of (event ∷ after.entry.now))) }
    ensures shorter { IfOk result (λ rest. length rest.now ≤ length after.entry.now) }
{
    match event {
        Event::Step(hart) => {
            let more = step_count(after, hart);
            put_steps(alloc, text, hart, more + 1)?;
            Ok(&after[more..])
        }
        Event::Evict { line, mask } => {
            put_eviction(alloc, text, line, mask)?;
            Ok(after)
        }
        Event::Crash => {
            put_crash(text)?;
            Ok(after)
        }
        Event::Start => {
            put_start(text)?;
            Ok(after)
        }
    }
}

/// Adds the lines that make events.
fn put_events(alloc: Global, text: &mut Vec<u8>, events: &[Event]) -> Result<(), OutOfMemory>
    ensures { OnOk result (text.new.items ≡ text.old.items ++ flat_map command_text (commands_of events.now)) }
{
    let mut rest = events;
    while let [event, after @ ..] = rest {
        rest = put_first(alloc, text, *event, after)?;
    }
    Ok(())
}

/// Adds a source, with an LF at its end.
fn put_source(text: &mut Vec<u8>, source: &[u8]) -> Result<(), OutOfMemory>
    ensures { OnOk result (text.new.items ≡ text.old.items ++ (if ends_line source.now then source.now else line source.now)) }
{
    put(text, source)?;
    if source.last() == Some(&b'\n') {
        Ok(())
    } else {
        put(text, b"\n")
    }
}

/// An input that plays the events of a run of a source again: the source, with an LF at its end, a line `%%`, and then `s H N` for each longest run of steps of
/// one hart, `e LINE MASK`, `c` and `r`.
#[tactic(auto, unfolding(crate::specs::Journals::journal_text))]
pub fn journal_text(alloc: Global, source: &[u8], events: &[Event]) -> Result<Vec<u8>, OutOfMemory>
    ensures { IfOk result (λ text. text.items ≡ journal_text source.now events.now) }
{
    let mut text = Vec::new(alloc);
    put_source(&mut text, source)?;
    put(&mut text, b"%%\n")?;
    put_events(alloc, &mut text, events)?;
    Ok(text)
}
