//! Legs and sweeps with answers that were followed by hand, and gates at which workers wait for each other.
use crate::counter::Counter;
use crate::points::Points;
use crate::watched::{Watch, Watched};
use hart_driver::drive::{Driven, drive};
use hart_driver::stop::Stop;
use hart_driver::sweep::sweep;
use ido_outside::{Gate, OpenGate};
use machine_events::evictions::Evictions;
use std::alloc::Global;
use std::process::Abort;
use std::sync::Wait;
use std::sync::atomic::{AtomicBool, AtomicU64, Ordering};
use std::test::Fail;
use std::thread::Threads;

/// One eviction again and again.
#[derive(Drop)]
struct Again;

impl Evictions for Again {
    ghost coming = { λ _ _. (0, 255) };

    fn now(&self) -> (u32, u32) {
        (0, 255)
    }

    fn advance(&mut self) {}
}

/// A hart that ends after six steps: with turns for more of them, for fewer, and up to a moment before its end.
#[test]
fn stops(rt: HostRuntime) -> Result<(), Fail> {
    for (turns, moment, stop, events) in [
        (8, 20, Stop::Ended, 6),
        (6, 6, Stop::Ended, 6),
        (4, 4, Stop::Turns, 4),
        (5, 4, Stop::Moment, 4),
        (0, 0, Stop::Turns, 0),
        (1, 0, Stop::Moment, 0),
    ] {
        let core = Counter::new(rt.alloc(), 20)?;
        let Driven { core, stops, .. } = drive(
            &rt,
            rt.alloc(),
            core,
            turns,
            moment,
            None::<Again>,
            &OpenGate,
        )?;
        assert_eq!(rt; stops.as_slice(), [stop].as_slice(), "{turns} {moment}");
        assert_eq!(rt; core.journal.len(), events, "{turns} {moment}");
    }
    Ok(())
}

/// A hart that ends after six steps, and a worker that evicts beside it.
#[test]
fn evictions(rt: HostRuntime) -> Result<(), Fail> {
    let core = Counter::new(rt.alloc(), 20)?;
    let Driven {
        core,
        stops,
        evict,
        ..
    } = drive(&rt, rt.alloc(), core, 8, 20, Some(Again), &OpenGate)?;
    assert_eq!(rt; stops.as_slice(), [Stop::Ended, Stop::Turns].as_slice());
    assert_eq!(rt; core.journal.len(), 14);
    assert!(rt; evict.is_some());
    Ok(())
}

/// Each of 201 points comes once, in order, whatever part it stands in.
#[test]
fn swept(rt: HostRuntime) -> Result<(), Fail> {
    let points = Points { alloc: rt.alloc() };
    for last in [0, 1, 2, 30, 31, 32, 33, 63, 64, 65, 200] {
        let outcomes = sweep(&rt, rt.alloc(), &points, last, &OpenGate)?;
        let numbers = outcomes.iter().flat_map(|o| o.report.bytes().iter());
        assert!(rt; numbers.copied().eq(0..=last as u8), "{last}");
    }
    Ok(())
}

/// A gate at which two workers, or what finds two points, wait for each other before each of their first turns.
#[derive(Drop)]
struct Meeting {
    /// Their numbers at the gate.
    one: u32,
    other: u32,
    /// Turns before which they meet.
    turns: u64,
    /// The last turn to which each of them has come.
    first: AtomicU64,
    second: AtomicU64,
    /// One of them has waited in vain.
    missed: AtomicBool,
}

/// How often a worker looks for the other one.
const LOOKS: u32 = 100_000_000;

impl Meeting {
    fn new(one: u32, other: u32, turns: u64) -> Meeting {
        Meeting {
            one,
            other,
            turns,
            first: AtomicU64::new(0),
            second: AtomicU64::new(0),
            missed: AtomicBool::new(false),
        }
    }

    /// Tells that a worker has come to its turn, and waits until the other one has.
    fn meet(&self, mine: &AtomicU64, other: &AtomicU64, turn: u64) {
        mine.store(turn, Ordering::SeqCst);
        for _ in 0..LOOKS {
            if other.load(Ordering::SeqCst) >= turn {
                return;
            }
        }
        self.missed.store(true, Ordering::SeqCst);
    }

    /// Whether both have come to as many turns as they were to, and neither in vain.
    fn have_met(&self) -> bool {
        !self.missed.load(Ordering::SeqCst)
            && self.first.load(Ordering::SeqCst) == self.turns
            && self.second.load(Ordering::SeqCst) == self.turns
    }
}

impl Gate for Meeting {
    fn pass(&self, number: u32, turn: u64) {
        if turn > self.turns {
            return;
        }
        if number == self.one {
            self.meet(&self.first, &self.second, turn);
        } else if number == self.other {
            self.meet(&self.second, &self.first, turn);
        }
    }
}

/// Harts run beside each other: each of two waits for the other one before its first three turns.
#[test]
fn beside(rt: HostRuntime) -> Result<(), Fail> {
    let gate = Meeting::new(0, 1, 3);
    let watch = Watch::new(true);
    let (stops, events) = two_harts(&rt, &watch, &gate, None)?;
    assert!(rt; gate.have_met());
    assert_eq!(rt; stops.as_slice(), [Stop::Turns, Stop::Turns].as_slice());
    assert_eq!(rt; events, 2_000);
    Ok(())
}

/// Evictions are made beside harts: the worker that makes them has the number after those of the harts, and the first hart and it wait
/// for each other before their first two turns.
#[test]
fn evictor_beside(rt: HostRuntime) -> Result<(), Fail> {
    let gate = Meeting::new(0, 2, 2);
    let watch = Watch::new(true);
    let (stops, events) = two_harts(&rt, &watch, &gate, Some(Again))?;
    assert!(rt; gate.have_met());
    assert_eq!(rt; stops.as_slice(), [Stop::Turns; 3].as_slice());
    assert_eq!(rt; events, 3_000);
    Ok(())
}

/// A leg of two harts that never stop, each of which makes a thousand steps: the stops of its workers, and how many events were made.
fn two_harts<R: Threads + Wait + Sync + Abort + Alloc<A = Global>>(
    rt: &R,
    watch: &Watch,
    gate: &Meeting,
    evict: Option<Again>,
) -> Result<(Vec<Stop>, usize), Fail> {
    let core = Watched::new(rt.alloc(), 4_000, watch)?;
    let Driven { core, stops, .. } = drive(rt, rt.alloc(), core, 1_000, 4_000, evict, gate)?;
    Ok((stops, core.journal.len()))
}

/// Points of a sweep are looked at beside each other, the first of four beside the last.
#[test]
fn swept_beside(rt: HostRuntime) -> Result<(), Fail> {
    let gate = Meeting::new(0, 3, 1);
    let points = Points { alloc: rt.alloc() };
    let outcomes = sweep(&rt, rt.alloc(), &points, 3, &gate)?;
    assert!(rt; gate.have_met());
    assert_eq!(rt; outcomes.len(), 4);
    Ok(())
}
