//! A core of four harts that never stop, each event of which touches eight lines of memory.
ghost use Rattle.std.specs.Prelude.{◌≡◌, ◌-◌, ◌≤◌, [], IfOk, map};
ghost use Rattle.std.specs.Vec.{vec_capacity, vec_len};
ghost use Rattle.machine_events.specs.Cores.{IsValid};
ghost use Rattle.benchmarks.specs.MovingCore.{event_of, moving, no_eviction};

use ido_base::memory::OutOfMemory;
use machine_events::event::{Event, Reply};
use machine_events::machine::Core;
use std::alloc::{AllocError, Global};

/// Lines that an event touches.
const LINES: usize = 8;

/// A core of four harts that never stop. It keeps its journal, whose room it has from the start.
#[derive(Drop)]
pub(crate) struct Lines {
    /// Eight lines of eight words, of which the first is counted up.
    pub lines: [u64; 64],
    /// A byte for each event, so that the journal is a small part of what an event touches.
    journal: Vec<u8>,
    /// Events that it takes.
    most: u64,
    ghost reserved: { most ≤ vec_capacity journal },
}

/// What runs ahead of a hart: nothing.
#[derive(Clone, Copy, Drop)]
pub(crate) struct NothingAhead;

/// The journal's byte for an event: the number of the hart whose step it is, or 4 for a crash.
fn byte_of(event: Event) -> u8
    requires { IsValid 4 no_eviction event }
    ensures { event_of result ≡ event }
{
    match event {
        Event::Step(hart) => hart as u8,
        Event::Evict { .. } | Event::Start => unreachable!(),
        Event::Crash => 4,
    }
}

impl Lines {
    /// A core before any event, that takes so many.
    pub(crate) fn new(alloc: Global, most: u32) -> Result<Lines, AllocError>
        ensures journal { IfOk result (λ core. core.journal.items ≡ []) }
        ensures most { IfOk result (λ core. core.most ≡ most) }
    {
        let journal = Vec::with_capacity(alloc, most as usize)?;
        Ok(Lines {
            lines: [0; 64],
            journal,
            most: u64::from(most),
        })
    }
}

impl Core for Lines {
    ghost use Rattle.std.specs.Prelude.{ℕ, false};

    ghost Meaning = { ℕ };

    ghost behaviour = { moving };

    ghost opening = { λ _. 0 };

    ghost history = { λ core. map event_of core.journal.items };

    ghost hart_count = { λ _. 4 };

    ghost space = { λ core. core.most - vec_len core.journal };

    ghost evictable = { λ _. no_eviction };

    ghost is_local = { λ _ _ _. Unit {0} };

    ghost ahead_by = { λ _. 0 };

    ghost goes_ahead = { λ _. false };

    ghost is_at_beginning = { λ _ _ _. Unit {0} };

    fn harts(&self) -> u32 {
        4
    }

    fn event(&mut self, event: Event) -> Reply {
        for line in 0..LINES {
            let word = 8 * line;
            self.lines[word] = self.lines[word].wrapping_add(1);
        }
        self.journal.push_reserved(byte_of(event));
        Reply::Moved
    }

    fn room(&self) -> u64 {
        self.most.saturating_sub(self.journal.len() as u64)
    }

    fn events(&self) -> u64 {
        self.journal.len() as u64
    }

    fn stopped(&self, _: u32) -> bool {
        false
    }

    fn points(&self, _: u32) -> u64 {
        0
    }

    fn fences(&self, _: u32) -> u64 {
        0
    }

    fn can_step(&self) -> Option<u32> {
        Some(0)
    }

    fn can_start(&self) -> bool {
        false
    }

    type Local = NothingAhead;

    fn local(&self, _: Global, _: u32) -> Result<NothingAhead, OutOfMemory> {
        Ok(NothingAhead)
    }

    fn refresh(&self, _: u32, _: &mut NothingAhead) {}

    fn ahead(_: &mut NothingAhead) -> bool {
        false
    }

    fn adopt(&mut self, _: u32, _: &NothingAhead) -> bool {
        true
    }
}
