//! A small core, which shows that what is asked of a core can be met.
ghost use Rattle.std.specs.Prelude.{◌≡◌, ◌-◌, ◌<◌, ◌≤◌, [], IfOk};
ghost use Rattle.log_schemes.specs.Layout.{line_count};
ghost use Rattle.log_schemes.specs.declared.log.Log.TheVariants.{V1};
ghost use Rattle.std.specs.Vec.{vec_capacity, vec_len};
ghost use Rattle.part_tests.specs.CountingCore.{counting, is_step, next, reply};
ghost use Rattle.machine_events.specs.Cores.{played, passed_count};

use ido_base::memory::OutOfMemory;
use machine_events::event::{Event, Reply};
use machine_events::machine::Core;
use std::alloc::{AllocError, Global};

/// Steps after which the hart has ended.
const STEPS: u32 = 6;

/// A core of one hart that ends after six steps. It keeps nothing but its journal, whose room it has from the start.
#[derive(Drop)]
pub struct Counter {
    pub journal: Vec<Event>,
    /// Events that it takes.
    pub most: u64,
    ghost reserved: { most ≤ vec_capacity journal },
}

/// What runs ahead of the counter's hart: nothing, since the core has a part in each of its steps.
#[derive(Clone, Copy, Drop)]
pub struct NothingAhead;

/// The steps since the last crash, with an event.
fn next(steps: u32, event: Event) -> u32
    requires { steps ≤ 6 }
    ensures steps { result ≡ next steps event }
    ensures bound { result ≤ 6 }
{
    match event {
        Event::Step(_) if steps < STEPS => steps + 1,
        Event::Crash => 0,
        _ => steps,
    }
}

/// What an event is replied to.
fn reply(steps: u32, event: Event) -> Reply
    ensures { result ≡ reply steps event }
{
    match event {
        Event::Step(_) if steps < STEPS => Reply::Moved,
        Event::Step(_) => Reply::Still,
        _ => Reply::Device,
    }
}

/// The event is the step after so many.
fn is_step(number: u32, steps: u32, event: Event) -> bool
    ensures { result ≡ is_step number steps event }
{
    matches!(event, Event::Step(_)) && steps == number
}

impl Counter {
    /// A core before any event, that takes so many.
    pub(crate) fn new(alloc: Global, most: u32) -> Result<Counter, AllocError>
        ensures journal { IfOk result (λ core. core.journal.items ≡ []) }
        ensures most { IfOk result (λ core. core.most ≡ most) }
    {
        let journal = Vec::with_capacity(alloc, most as usize)?;
        Ok(Counter {
            journal,
            most: u64::from(most),
        })
    }

    /// The steps since the last crash.
    fn steps_made(&self) -> u32
        ensures steps { result ≡ played counting 0 self.now.journal.items }
        ensures bound { result ≤ 6 }
    {
        let mut steps = 0;
        for event in &self.journal {
            steps = next(steps, *event);
        }
        steps
    }

    /// How often the step after so many was made.
    fn times(&self, number: u32) -> u64
        ensures { result ≡ passed_count counting (is_step number) 0 self.now.journal.items }
    {
        let mut steps = 0;
        let mut times = 0;
        for event in &self.journal {
            if is_step(number, steps, *event) {
                times += 1;
            }
            steps = next(steps, *event);
        }
        times
    }
}

impl Core for Counter {
    ghost use Rattle.std.specs.Prelude.{ℕ, false};

    ghost Meaning = { ℕ };

    ghost behaviour = { counting };

    ghost opening = { λ _. 0 };

    ghost history = { λ core. core.journal.items };

    ghost hart_count = { λ _. 1 };

    ghost space = { λ core. core.most - vec_len core.journal };

    ghost evictable = { λ _ line mask. (line < line_count V1 1) × (mask ≤ 255) };

    ghost is_local = { λ _ _ _. Unit {0} };

    ghost ahead_by = { λ _. 0 };

    ghost goes_ahead = { λ _. false };

    ghost is_at_beginning = { λ _ _ _. Unit {0} };

    fn harts(&self) -> u32 {
        1
    }

    fn event(&mut self, event: Event) -> Reply {
        let reply = reply(self.steps_made(), event);
        if self.journal.push(event).is_err() {
            return Reply::Still;
        }
        reply
    }

    fn room(&self) -> u64 {
        self.most.saturating_sub(self.journal.len() as u64)
    }

    fn events(&self) -> u64 {
        self.journal.len() as u64
    }

    fn stopped(&self, _: u32) -> bool {
        self.steps_made() >= STEPS
    }

    fn points(&self, _: u32) -> u64 {
        self.times(3)
    }

    fn fences(&self, _: u32) -> u64 {
        self.times(1)
    }

    fn can_step(&self) -> Option<u32> {
        if self.steps_made() < STEPS {
            Some(0)
        } else {
            None
        }
    }

    fn can_start(&self) -> bool {
        false
    }

    type Local = NothingAhead;

    fn local(&self, _: Global, _: u32) -> Result<NothingAhead, OutOfMemory> {
        Ok(NothingAhead)
    }

    fn refresh(&self, _: u32, _: &mut NothingAhead) {}

    fn ahead(_: &mut NothingAhead) -> bool {
        false
    }

    fn adopt(&mut self, _: u32, _: &NothingAhead) -> bool {
        true
    }
}
