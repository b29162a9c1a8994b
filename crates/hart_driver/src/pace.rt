//! How the workers of a leg begin together, and how one that waits lets others go first. Nothing is known of the words here, and
//! no answer rests on them.
use machine_events::event::Reply;
use std::sync::Wait;
use std::sync::atomic::{AtomicU64, Ordering};
use std::thread;
use std::thread::{Threads, yield_now};

/// How often a worker that waits looks before it gives the processor away.
const LOOKS: u32 = 64;

/// How often a worker gives the processor away until all have begun. It is some seconds at the least.
const PATIENCE: u32 = 20_000_000;

/// Beside the number of workers that have begun: one of them has no thread, and none takes turns.
const END: u64 = 1 << 32;

/// Harts that wait are counted below this; above it stands how often harts have gone on.
const ROUND: u64 = 1 << 32;

/// What the workers of a leg tell each other of how they get on.
#[derive(Drop)]
pub(crate) struct Pace {
    workers: u64,
    /// The workers that have begun.
    begun: AtomicU64,
    /// How often a hart has gone on, and how many wait that have found themselves waiting since.
    going: AtomicU64,
    /// The harts that have something to do.
    busy: AtomicU64,
}

/// The hart waits for what others do.
fn waits(reply: Reply) -> bool {
    matches!(reply, Reply::Waits { .. } | Reply::Barrier { .. })
}

/// Waits until the word is 1.
fn await_one<R: Wait>(rt: &R, word: &AtomicU64) {
    for _ in rt.forever() {
        if word.load(Ordering::SeqCst) == 1 {
            return;
        }
        yield_now();
    }
}

/// Whether so many threads can be made beside each other. They do nothing.
fn fit<R: Threads + Wait + Sync>(rt: &R, count: u32) -> bool {
    let word = AtomicU64::new(0);
    let shared = &word;
    thread::scope(thread::scope_env(), rt, |scope| {
        let mut all = true;
        for _ in 0..count {
            if scope.spawn(move || await_one(rt, shared)).is_err() {
                all = false;
                break;
            }
        }
        shared.store(1, Ordering::SeqCst);
        all
    })
}

impl Pace {
    /// That of a leg of so many harts and workers. The caller is one worker's thread.
    pub(crate) fn of<R: Threads + Wait + Sync>(rt: &R, harts: u32, workers: u32) -> Self {
        let begun = if fit(rt, workers.saturating_sub(1)) {
            0
        } else {
            END
        };
        Pace {
            workers: u64::from(workers),
            begun: AtomicU64::new(begun),
            going: AtomicU64::new(0),
            busy: AtomicU64::new(u64::from(harts)),
        }
    }

    /// A worker begins, in whatever thread: true once all have, each of which is then in a thread of its own; and false to all where one of them doesn't
    /// come.
    pub(crate) fn begins(&self) -> bool {
        self.begun.fetch_add(1, Ordering::SeqCst);
        for _ in 0..PATIENCE {
            let begun = self.begun.load(Ordering::SeqCst);
            if begun >= self.workers {
                return begun == self.workers;
            }
            yield_now();
        }
        self.give_up()
    }

    /// True where all have begun after all; else none takes turns.
    fn give_up(&self) -> bool {
        for _ in 0..self.workers {
            let begun = self.begun.load(Ordering::SeqCst);
            if begun >= self.workers {
                return begun == self.workers;
            }
            let end = begun.wrapping_add(END);
            if self
                .begun
                .compare_exchange(begun, end, Ordering::SeqCst, Ordering::SeqCst)
                .is_ok()
            {
                return false;
            }
        }
        self.begun.load(Ordering::SeqCst) == self.workers
    }

    /// How the harts get on, to be looked at before a turn.
    pub(crate) fn now(&self) -> u64 {
        self.going.load(Ordering::SeqCst)
    }

    /// After a turn of a hart. Where it did nothing but wait, it takes the next one once another hart has gone on since `before`, or where all
    /// wait.
    pub(crate) fn after_turn<R: Wait>(&self, rt: &R, before: u64, events: u64, last: Reply) {
        if events > 1 || !waits(last) {
            self.go_on(rt);
        } else if self.join_waiting(rt, before) {
            self.await_others(rt, before);
        }
    }

    /// A hart has nothing more to do.
    pub(crate) fn leave(&self) {
        self.busy.fetch_sub(1, Ordering::SeqCst);
    }

    /// Waits until a hart has gone on since `before`, or all harts that have something to do wait.
    pub(crate) fn await_others<R: Wait>(&self, rt: &R, before: u64) {
        for _ in rt.forever() {
            for _ in 0..LOOKS {
                if self.has_changed(before, self.now()) {
                    return;
                }
            }
            yield_now();
        }
    }

    /// A hart has gone on since, or all that have something to do wait.
    fn has_changed(&self, before: u64, now: u64) -> bool {
        now / ROUND != before / ROUND || now % ROUND >= self.busy.load(Ordering::SeqCst)
    }

    /// A hart has gone on: who waits may try again.
    fn go_on<R: Wait>(&self, rt: &R) {
        for _ in rt.forever() {
            let now = self.now();
            let next = (now - now % ROUND).wrapping_add(ROUND);
            if self.replace(now, next) {
                return;
            }
        }
    }

    /// One more hart waits. False where a hart has gone on since, or all wait already.
    fn join_waiting<R: Wait>(&self, rt: &R, before: u64) -> bool {
        for _ in rt.forever() {
            let now = self.now();
            if self.has_changed(before, now) {
                return false;
            }
            if self.replace(now, now.wrapping_add(1)) {
                return true;
            }
        }
        unreachable!()
    }

    /// Whether this was how they got on, and is now that.
    fn replace(&self, old: u64, new: u64) -> bool {
        self.going
            .compare_exchange(old, new, Ordering::SeqCst, Ordering::SeqCst)
            .is_ok()
    }
}
