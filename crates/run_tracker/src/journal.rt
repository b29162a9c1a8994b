//! The journal of a life.
ghost use Rattle.std.specs.Prelude.{◌≡◌, ◌+◌, ◌<◌, ◌≤◌, ◌^◌, ◌∷◌, ◌++◌, [], flat_map, length, replicate, IfOk, OnOk};
ghost use Rattle.std.specs.Vec.{vec_capacity, vec_len};
ghost use Rattle.machine_events.specs.declared.event.Event.TheVariants.{Step};
ghost use Rattle.run_tracker.specs.links.Journals.{events_in};

use ido_base::memory::OutOfMemory;
use machine_events::event::Event;
use std::alloc::Global;
use std::marker::Model;

/// Events that were made one after the other.
#[derive(Clone, Copy, Drop)]
enum Entry {
    /// Steps of a hart, `count` of them.
    Steps { hart: u32, count: u32 },
    Evict { line: u32, mask: u32 },
    Crash,
    Start,
}

/// Events in the order in which they were made. It has room for them from the start.
#[derive(Drop)]
pub(crate) struct Journal {
    entries: Vec<Entry>,
    /// How many events these are.
    closed: u64,
    /// After the entries, so many steps of this hart.
    hart: u32,
    steps: u32,
}

impl Model for Journal {
    ghost use Rattle.run_tracker.specs.links.Journals.{Recorded};

    ghost Value = { Recorded };

    ghost use Rattle.run_tracker.specs.links.Journals.{recorded, JournalInv};

    ghost view = { recorded };

    ghost invariant = { JournalInv };
}

/// Adds so many equal events.
fn push_equal(events: &mut Vec<Event>, event: Event, count: u32) -> Result<(), OutOfMemory>
    ensures { OnOk result (events.new.items ≡ events.old.items ++ replicate count event) }
{
    for _ in 0..count {
        events.push(event)?;
    }
    Ok(())
}

/// Adds the events of an entry.
fn push_entry(events: &mut Vec<Event>, entry: Entry) -> Result<(), OutOfMemory>
    ensures { OnOk result (events.new.items ≡ events.old.items ++ events_in entry) }
{
    match entry {
        Entry::Steps { hart, count } => push_equal(events, Event::Step(hart), count),
        Entry::Evict { line, mask } => push_equal(events, Event::Evict { line, mask }, 1),
        Entry::Crash => push_equal(events, Event::Crash, 1),
        Entry::Start => push_equal(events, Event::Start, 1),
    }
}

/// Adds an entry of so many steps of a hart, if there are some.
fn close(entries: &mut Vec<Entry>, hart: u32, steps: u32)
    requires room { vec_len entries.old + steps ≤ vec_capacity entries.old }
    ensures events { flat_map events_in entries.new.items ≡ flat_map events_in entries.old.items ++ replicate steps (Step hart) }
    ensures len { vec_len entries.new ≤ vec_len entries.old + steps }
    ensures capacity { vec_capacity entries.new ≡ vec_capacity entries.old }
{
    if steps > 0 {
        entries.push_reserved(Entry::Steps { hart, count: steps });
    }
}

impl Journal {
    /// The journal before any event, with room for so many.
    pub fn new(alloc: Global, room: u64) -> Result<Journal, OutOfMemory>
        requires { room < 2 ^ 63 }
        ensures { IfOk result (λ journal. journal ≡ record { events = []; room = room }) }
    {
        Ok(Journal {
            entries: Vec::with_capacity(alloc, room as usize)?,
            closed: 0,
            hart: 0,
            steps: 0,
        })
    }

    /// How many events were made.
    pub fn count(&self) -> u64
        ensures { result ≡ length self.now.events }
    {
        self.closed + u64::from(self.steps)
    }

    /// The events.
    pub fn events(&self, alloc: Global) -> Result<Vec<Event>, OutOfMemory>
        ensures { IfOk result (λ events. events.items ≡ self.now.events) }
    {
        let mut events = Vec::with_capacity(alloc, self.count() as usize)?;
        for entry in &self.entries {
            push_entry(&mut events, *entry)?;
        }
        push_equal(&mut events, Event::Step(self.hart), self.steps)?;
        Ok(events)
    }

    /// Adds a step of a hart.
    #[inline(always)]
    fn add_step(&mut self, hart: u32)
        requires room { length self.old.events < self.old.room }
        ensures { self.new ≡ record self.old { events = self.old.events ++ Step hart ∷ [] } }
    {
        if hart != self.hart || self.steps == u32::MAX {
            close(&mut self.entries, self.hart, self.steps);
            self.closed += u64::from(self.steps);
            self.hart = hart;
            self.steps = 0;
        }
        self.steps += 1;
    }

    /// Adds so many steps of a hart, by one entry at most.
    pub fn push_steps(&mut self, hart: u32, count: u32)
        requires room { length self.old.events + count ≤ self.old.room }
        ensures { self.new ≡ record self.old { events = self.old.events ++ replicate count (Step hart) } }
    {
        if hart == self.hart && self.steps <= u32::MAX - count {
            self.steps += count;
            return;
        }
        close(&mut self.entries, self.hart, self.steps);
        self.closed += u64::from(self.steps);
        self.hart = hart;
        self.steps = count;
    }

    /// Adds an entry of one event.
    fn add_entry(&mut self, entry: Entry)
        requires room { length self.old.events < self.old.room }
        requires one { length (events_in entry) ≡ 1 }
        ensures { self.new ≡ record self.old { events = self.old.events ++ events_in entry } }
    {
        close(&mut self.entries, self.hart, self.steps);
        self.entries.push_reserved(entry);
        self.closed += u64::from(self.steps) + 1;
        self.steps = 0;
    }

    /// Adds an event.
    #[inline(always)]
    pub fn push(&mut self, event: Event)
        requires room { length self.old.events < self.old.room }
        ensures { self.new ≡ record self.old { events = self.old.events ++ event ∷ [] } }
    {
        match event {
            Event::Step(hart) => self.add_step(hart),
            Event::Evict { line, mask } => self.add_entry(Entry::Evict { line, mask }),
            Event::Crash => self.add_entry(Entry::Crash),
            Event::Start => self.add_entry(Entry::Start),
        }
    }
}
