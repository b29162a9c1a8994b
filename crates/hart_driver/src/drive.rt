//! Legs on threads.
ghost use Rattle.std.specs.Prelude.{◌≡◌, ◌+◌, ◌<◌, ◌≤◌, ◌^◌, [], ℕ, All, IfOk, IfSome, MatchOption, length};
ghost use Rattle.std.specs.Vec.{vec_capacity, vec_len};
ghost use Rattle.hart_board.specs.BoardRule.{numbers_from};
ghost use Rattle.hart_board.specs.CoreTurns.{RunsIn};
ghost use Rattle.hart_board.specs.Seats.{IsSeatOf, ceiling_of, numbers_of, opening_core, seats_of, seen, turns_of};
ghost use Rattle.hart_driver.specs.Driven.{IsDriven};
ghost use Rattle.hart_driver.specs.links.BoardRuns.{HasRunBoard};
ghost use Rattle.hart_driver.specs.links.UnderWay.{CanDrive};

use crate::finishing::finish;
use crate::pace::Pace;
use crate::running::{Part, run_all, run_harts};
use crate::start::Start;
use crate::stop::Stop;
use hart_board::board::Board;
use hart_board::seat::Seat;
use ido_base::memory::OutOfMemory;
use ido_outside::Gate;
use machine_events::evictions::Evictions;
use machine_events::machine::Core;
use std::alloc::Global;
use std::snapshot::Snapshot;
use std::sync::Wait;
use std::thread::Threads;

/// What a leg leaves: the core, each worker's stop, and the evictions from the first on that isn't over.
#[derive(Drop)]
pub struct Driven<C, V> {
    pub core: C,
    pub stops: Vec<Stop>,
    pub evict: Option<V>,
}

/// A leg of this core: each hart makes at most so many events, in a thread of its own, until it has ended, or the core has had as
/// many events as its moment. Evictions are made in one more thread, as many at most. Before each turn the gate is passed.
/// Where one of these threads can't be made none takes a turn, and the caller makes rounds over the workers, an event of each.
pub fn drive<
    R: Threads + Wait + Sync,
    C: Core + Send + Drop,
    V: Evictions + Send + Drop,
    G: Gate + Sync,
>(
    rt: &R,
    alloc: Global,
    core: C,
    turns: u64,
    moment: u64,
    evict: Option<V>,
    gate: &G,
) -> Result<Driven<C, V>, OutOfMemory>
    requires harts { C.hart_count core + 1 < 2 ^ 32 }
    requires moment { (length (C.history core) ≤ moment) × (moment ≤ length (C.history core) + C.space core) }
    requires evictions { IfSome evict (λ v. (n : ℕ) → C.evictable core (V.coming v n).0 (V.coming v n).1) }
    ensures { IfOk result (λ d. IsDriven C.behaviour C.opening C.history C.hart_count V.coming C.space C.evictable core turns moment evict d.core
        d.stops.items d.evict) }
{
    let harts = core.harts();
    if harts == 0 {
        let stops = Vec::new(alloc);
        return Ok(Driven { core, stops, evict });
    }
    let workers = count_workers(harts, &evict);
    let start = Start {
        core: Snapshot::of(&core),
        evict: Snapshot::of(&evict),
        turns,
        moment,
    };
    let mut stops = Vec::with_capacity(alloc, workers as usize)?;
    let parts = Vec::with_capacity(alloc, 2)?;
    let (board, seats) = Board::new(alloc, core, workers, turns, moment)?;
    let pace = Pace::of(rt, harts, workers);
    let (mut core, mut counts, mut evict) = run(rt, board, seats, evict, gate, &pace, parts);
    finish(
        &start,
        &mut core,
        counts.as_mut_slice(),
        &mut evict,
        &mut stops,
        workers,
    );
    Ok(Driven { core, stops, evict })
}

/// The workers: one a hart, and one for evictions.
fn count_workers<V>(harts: u32, evict: &Option<V>) -> u32
    requires { harts + 1 < 2 ^ 32 }
    ensures { MatchOption evict.now (result ≡ harts) (λ v. result ≡ harts + 1) }
{
    match evict {
        None => harts,
        Some(_) => harts + 1,
    }
}

/// Lets all workers run, and ends the board.
fn run<R: Threads + Wait + Sync, C: Core + Send, V: Evictions + Send + Drop, G: Gate + Sync>(
    rt: &R,
    board: Board<C>,
    mut seats: Vec<Seat<C, C::Local>>,
    evict: Option<V>,
    gate: &G,
    pace: &Pace,
    parts: Vec<Part<C, C::Local, V>>,
) -> (C, Vec<u64>, Option<V>)
    requires room { (parts.items ≡ []) × (2 ≤ vec_capacity parts) }
    requires seats { All (λ s. IsSeatOf C.history C.space (RunsIn C.opening C.hart_count C.is_local C.ahead_by) board s × (seen s ≡ [])) seats.items }
    requires numbers { numbers_of seats.items ≡ numbers_from 0 (seats_of board) }
    requires some { 0 < C.hart_count (opening_core board) }
    requires workers { MatchOption evict (seats_of board ≡ C.hart_count (opening_core board)) (λ v. seats_of board ≡ C.hart_count (opening_core board) + 1) }
    requires drives { CanDrive C.history C.space C.evictable V.coming (opening_core board) (ceiling_of board) evict }
    ensures { HasRunBoard C.behaviour C.opening C.history C.hart_count V.coming C.space C.evictable (opening_core board) (turns_of board) (ceiling_of board)
        evict result.0 result.1.items result.2 }
{
    let Some(evict) = evict else {
        run_harts(rt, &board, gate, pace, seats.as_mut_slice());
        let (core, counts) = board.into_core(seats);
        return (core, counts, None);
    };
    let Some(last) = seats.pop() else {
        unreachable!()
    };
    let (mut seats, last, evict) = run_all(rt, &board, gate, pace, seats, last, evict, parts);
    seats.push_reserved(last);
    let (core, counts) = board.into_core(seats);
    (core, counts, Some(evict))
}
