//! A core that a test watches while threads use it.
ghost use Rattle.std.specs.Prelude.{◌≡◌, ◌-◌, ◌<◌, ◌≤◌, ◌+◌, ◌++◌, ◌∷◌, [], replicate, IfOk};
ghost use Rattle.std.specs.Vec.{vec_capacity, vec_len};
ghost use Rattle.machine_events.specs.declared.event.Event.TheVariants.{Step};
ghost use Rattle.part_tests.specs.MovingCore.{is_step_of, moving, reply, steps_of};

use ido_base::memory::OutOfMemory;
use machine_events::event::{Event, Reply};
use machine_events::machine::Core;
use std::alloc::{AllocError, Global};
use std::sync::atomic::{AtomicBool, AtomicU64, Ordering};

/// How often a turn, or who waits for one, looks.
const LOOKS: u32 = 100_000_000;

/// A hart's first steps, which touch nothing but the hart.
const LOCAL_STEPS: u64 = 3;

/// What a test sees of a core, and how it holds up the core's turns.
#[derive(Drop)]
pub struct Watch {
    begun: AtomicBool,
    open: AtomicBool,
    asked: AtomicU64,
    adoptions: AtomicU64,
    adopted: AtomicU64,
}

impl Watch {
    /// A watch that holds up nothing, or each turn until it lets them go on.
    pub(crate) fn new(open: bool) -> Watch {
        Watch {
            begun: AtomicBool::new(false),
            open: AtomicBool::new(open),
            asked: AtomicU64::new(0),
            adoptions: AtomicU64::new(0),
            adopted: AtomicU64::new(0),
        }
    }

    /// A turn has begun, and goes on once it may, or after many looks.
    fn hold_up(&self) {
        self.begun.store(true, Ordering::SeqCst);
        for _ in 0..LOOKS {
            if self.open.load(Ordering::SeqCst) {
                return;
            }
        }
    }

    /// Looks for a turn that has begun, many times at most.
    pub(crate) fn await_turn(&self) {
        for _ in 0..LOOKS {
            if self.begun.load(Ordering::SeqCst) {
                return;
            }
        }
    }

    /// Lets turns go on.
    pub(crate) fn let_on(&self) {
        self.open.store(true, Ordering::SeqCst);
    }

    /// How often what runs ahead of hart 1 was asked for one more step.
    pub(crate) fn asked(&self) -> u64 {
        self.asked.load(Ordering::SeqCst)
    }

    /// How often the core was asked to adopt steps.
    pub(crate) fn adoptions(&self) -> u64 {
        self.adoptions.load(Ordering::SeqCst)
    }

    /// How many steps it has adopted.
    pub(crate) fn adopted(&self) -> u64 {
        self.adopted.load(Ordering::SeqCst)
    }
}

/// A core of two harts that never stop, of each of which the first three steps touch nothing but the hart.
#[derive(Drop)]
pub struct Watched<'a> {
    pub journal: Vec<Event>,
    /// Events that it takes.
    pub most: u64,
    watch: &'a Watch,
    ghost reserved: { most ≤ vec_capacity journal },
}

/// What runs ahead of a hart.
#[derive(Drop)]
pub struct Runner<'a> {
    hart: u32,
    /// The hart's steps at its beginning.
    begun: u64,
    /// Steps since.
    steps: u64,
    watch: &'a Watch,
}

/// What an event is replied to.
fn reply(event: Event) -> Reply
    ensures { result ≡ reply event }
{
    match event {
        Event::Step(_) => Reply::Moved,
        Event::Evict { .. } | Event::Crash | Event::Start => Reply::Device,
    }
}

/// The event is a step of the hart.
fn is_step_of(hart: u32, event: Event) -> bool
    ensures { result ≡ is_step_of hart event }
{
    match event {
        Event::Step(other) => other == hart,
        Event::Evict { .. } | Event::Crash | Event::Start => false,
    }
}

impl<'a> Watched<'a> {
    /// A core before any event, that takes so many.
    pub(crate) fn new(alloc: Global, most: u32, watch: &'a Watch) -> Result<Watched<'a>, AllocError>
        ensures journal { IfOk result (λ core. core.journal.items ≡ []) }
        ensures most { IfOk result (λ core. core.most ≡ most) }
    {
        let journal = Vec::with_capacity(alloc, most as usize)?;
        Ok(Watched {
            journal,
            most: u64::from(most),
            watch,
        })
    }

    /// The steps of a hart.
    fn steps_made(&self, hart: u32) -> u64
        ensures { result ≡ steps_of hart self.now.journal.items }
    {
        let mut steps = 0;
        for event in &self.journal {
            if is_step_of(hart, *event) {
                steps += 1;
            }
        }
        steps
    }

    /// Makes steps of a hart.
    fn make_steps(&mut self, hart: u32, count: u64)
        requires { count ≤ self.old.most - vec_len self.old.journal }
        ensures journal { self.new.journal.items ≡ self.old.journal.items ++ replicate count (Step hart) }
        ensures most { self.new.most ≡ self.old.most }
    {
        for _ in 0..count {
            self.journal.push_reserved(Event::Step(hart));
        }
    }
}

impl<'a> Core for Watched<'a> {
    ghost use Rattle.std.specs.Prelude.{ℕ, nat_lt};

    ghost Meaning = { ℕ };

    ghost behaviour = { moving };

    ghost opening = { λ _. 0 };

    ghost history = { λ core. core.journal.items };

    ghost hart_count = { λ _. 2 };

    ghost space = { λ core. core.most - vec_len core.journal };

    ghost evictable = { λ _ _ _. Unit {0} };

    ghost is_local = { λ _ _ _. Unit {0} };

    ghost ahead_by = { λ runner. runner.steps };

    ghost goes_ahead = { λ runner. nat_lt runner.steps (3 - runner.begun) };

    ghost is_at_beginning = { λ core hart runner. runner.begun ≡ steps_of hart core.journal.items };

    fn harts(&self) -> u32 {
        2
    }

    fn event(&mut self, event: Event) -> Reply {
        self.watch.hold_up();
        self.journal.push_reserved(event);
        reply(event)
    }

    fn room(&self) -> u64 {
        self.most.saturating_sub(self.journal.len() as u64)
    }

    fn events(&self) -> u64 {
        self.journal.len() as u64
    }

    fn stopped(&self, _: u32) -> bool {
        false
    }

    fn points(&self, _: u32) -> u64 {
        0
    }

    fn fences(&self, _: u32) -> u64 {
        0
    }

    fn can_step(&self) -> Option<u32> {
        Some(0)
    }

    fn can_start(&self) -> bool {
        false
    }

    type Local = Runner<'a>;

    fn local(&self, _: Global, hart: u32) -> Result<Runner<'a>, OutOfMemory> {
        Ok(Runner {
            hart,
            begun: self.steps_made(hart),
            steps: 0,
            watch: self.watch,
        })
    }

    fn refresh(&self, hart: u32, runner: &mut Runner<'a>) {
        runner.begun = self.steps_made(hart);
        runner.steps = 0;
    }

    fn ahead(runner: &mut Runner<'a>) -> bool {
        if runner.hart == 1 {
            runner.watch.asked.fetch_add(1, Ordering::SeqCst);
        }
        if runner.steps >= LOCAL_STEPS.saturating_sub(runner.begun) {
            return false;
        }
        runner.steps += 1;
        true
    }

    fn adopt(&mut self, hart: u32, runner: &Runner<'a>) -> bool {
        self.watch.adoptions.fetch_add(1, Ordering::SeqCst);
        self.watch.hold_up();
        if self.steps_made(hart) != runner.begun {
            return false;
        }
        self.make_steps(hart, runner.steps);
        self.watch.adopted.fetch_add(runner.steps, Ordering::SeqCst);
        true
    }
}
