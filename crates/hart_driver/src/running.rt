//! Workers in threads of their own.
ghost use Rattle.std.specs.Prelude.{◌≡◌, ◌<◌, ◌≤◌, ◌++◌, ◌∷◌, [], ℕ, All};
ghost use Rattle.std.specs.Vec.{vec_capacity};
ghost use Rattle.hart_board.specs.CoreTurns.{RunsIn};
ghost use Rattle.hart_board.specs.Seats.{IsSeatOf, number, numbers_of, opening_core, seen};
ghost use Rattle.hart_driver.specs.declared.running.Part.TheVariants.{Evictor, Harts};
ghost use Rattle.hart_driver.specs.links.Parts.{CanRun, EndsIn, EvictsFrom, HasRun, HaveRun, IsEvictor, IsHartSeat, IsHarts};

use crate::pace::Pace;
use hart_board::board::Board;
use hart_board::seat::{Seat, Turn};
use ido_outside::Gate;
use machine_events::evictions::Evictions;
use machine_events::machine::Core;
use std::sync::Wait;
use std::thread::{Threads, for_each_mut};

/// Events of a turn at most.
const MOST: u64 = 4096;

/// The events of the next turn at most: turns begin with one event and grow twofold.
fn longer(most: u64) -> u64
    requires { 0 < most }
    ensures { 0 < result }
{
    if most > MOST / 2 { MOST } else { most + most }
}

/// Turns of a hart's seat, until it has nothing more to do. After 2^64 - 2 turns, which no run comes to, the rest is left to the caller, and
/// all where not each worker has a thread.
fn take_turns<C: Core, R: Wait, G: Gate>(
    rt: &R,
    board: &Board<C>,
    gate: &G,
    pace: &Pace,
    seat: &mut Seat<C, C::Local>,
)
    requires seat { IsSeatOf C.history C.space (RunsIn C.opening C.hart_count C.is_local C.ahead_by) board.now seat.old }
    requires hart { number seat.old < C.hart_count (opening_core board.now) }
    ensures { IsSeatOf C.history C.space (RunsIn C.opening C.hart_count C.is_local C.ahead_by) board.now seat.new × (number seat.new ≡ number seat.old) }
{
    if !pace.begins() {
        return;
    }
    let mut most = 1;
    for turn in 1..u64::MAX {
        gate.pass(seat.number(), turn);
        let before = pace.now();
        match board.turn(rt, seat, most) {
            Turn::Did { events, last } => pace.after_turn(rt, before, events, last),
            Turn::Over => {
                pace.leave();
                return;
            }
        }
        most = longer(most);
    }
}

/// Turns of a seat that has a hart, until it has nothing more to do.
fn take_hart_turns<C: Core, R: Wait, G: Gate>(
    rt: &R,
    board: &Board<C>,
    gate: &G,
    pace: &Pace,
    seat: &mut Seat<C, C::Local>,
)
    requires { IsHartSeat C.history C.space (RunsIn C.opening C.hart_count C.is_local C.ahead_by) C.hart_count board.now seat.old }
    ensures { IsSeatOf C.history C.space (RunsIn C.opening C.hart_count C.is_local C.ahead_by) board.now seat.new × (number seat.new ≡ number seat.old) }
{
    take_turns(rt, board, gate, pace, seat);
}

/// Evictions of the seat after those of all harts, until it has nothing more to do. Between two of them a hart goes on, where one has something
/// to do and doesn't wait. After 2^64 - 2 turns the rest is left to the caller, and all where not each worker has a thread.
fn evict_all<C: Core, V: Evictions, R: Wait, G: Gate>(
    rt: &R,
    board: &Board<C>,
    gate: &G,
    pace: &Pace,
    seat: &mut Seat<C, C::Local>,
    evict: &mut V,
)
    requires seat { IsSeatOf C.history C.space (RunsIn C.opening C.hart_count C.is_local C.ahead_by) board.now seat.old × (seen seat.old ≡ []) }
    requires no_hart { C.hart_count (opening_core board.now) ≤ number seat.old }
    requires valid { (n : ℕ) → C.evictable (opening_core board.now) (V.coming evict.old n).0 (V.coming evict.old n).1 }
    ensures seat { IsSeatOf C.history C.space (RunsIn C.opening C.hart_count C.is_local C.ahead_by) board.now seat.new
        × (number seat.new ≡ number seat.old) }
    ensures evicts { EvictsFrom V.coming evict.old seat.new evict.new }
{
    if !pace.begins() {
        return;
    }
    for turn in 1..u64::MAX {
        gate.pass(seat.number(), turn);
        let before = pace.now();
        let (line, mask) = evict.now();
        match board.evict_turn(rt, seat, line, mask) {
            Turn::Did { .. } => evict.advance(),
            Turn::Over => return,
        }
        pace.await_others(rt, before);
    }
}

/// Turns of the harts' seats, each in a thread of its own.
pub(crate) fn run_harts<C: Core + Send, R: Threads + Wait + Sync, G: Gate + Sync>(
    rt: &R,
    board: &Board<C>,
    gate: &G,
    pace: &Pace,
    seats: &mut [Seat<C, C::Local>],
)
    requires { All (IsHartSeat C.history C.space (RunsIn C.opening C.hart_count C.is_local C.ahead_by) C.hart_count board.now) seats.old }
    ensures seats { All (IsSeatOf C.history C.space (RunsIn C.opening C.hart_count C.is_local C.ahead_by) board.now) seats.new }
    ensures numbers { numbers_of seats.new ≡ numbers_of seats.old }
{
    let count = seats.len();
    if count == 0 {
        return;
    }
    for_each_mut(
        rt,
        seats,
        count,
        &|_, seat: &mut Seat<C, C::Local>|
            requires { IsHartSeat C.history C.space (RunsIn C.opening C.hart_count C.is_local C.ahead_by) C.hart_count board.now seat.now }
            ensures { IsSeatOf C.history C.space (RunsIn C.opening C.hart_count C.is_local C.ahead_by) board.entry.now seat.exit.now
                × (number seat.exit.now ≡ number seat.entry.now) }
        { take_hart_turns(rt, board, gate, pace, seat) },
    );
}

/// What has a thread of its own: the harts' seats, each of which has one more, or the seat for evictions.
#[derive(Drop)]
pub(crate) enum Part<C, L, V> {
    Harts(Vec<Seat<C, L>>),
    Evictor(Seat<C, L>, V),
}

/// Turns of these seats, or evictions.
fn run_part<C: Core + Send, V: Evictions, R: Threads + Wait + Sync, G: Gate + Sync>(
    rt: &R,
    board: &Board<C>,
    gate: &G,
    pace: &Pace,
    part: &mut Part<C, C::Local, V>,
)
    requires { CanRun C.history C.space (RunsIn C.opening C.hart_count C.is_local C.ahead_by) C.hart_count C.evictable V.coming board.now part.old }
    ensures { HasRun C.history C.space (RunsIn C.opening C.hart_count C.is_local C.ahead_by) V.coming board.now part.old part.new }
{
    match part {
        Part::Harts(seats) => run_harts(rt, board, gate, pace, seats.as_mut_slice()),
        Part::Evictor(seat, evict) => evict_all(rt, board, gate, pace, seat, evict),
    }
}

/// Both parts side by side.
pub(crate) fn run_parts<
    C: Core + Send,
    V: Evictions + Send,
    R: Threads + Wait + Sync,
    G: Gate + Sync,
>(rt: &R, board: &Board<C>, gate: &G, pace: &Pace, parts: &mut [Part<C, C::Local, V>])
    requires { All (CanRun C.history C.space (RunsIn C.opening C.hart_count C.is_local C.ahead_by) C.hart_count C.evictable V.coming board.now) parts.old }
    ensures { HaveRun C.history C.space (RunsIn C.opening C.hart_count C.is_local C.ahead_by) V.coming board.now parts.old parts.new }
{
    let count = parts.len();
    if count == 0 {
        return;
    }
    for_each_mut(
        rt,
        parts,
        count,
        &|_, part: &mut Part<C, C::Local, V>|
            requires { CanRun C.history C.space (RunsIn C.opening C.hart_count C.is_local C.ahead_by) C.hart_count C.evictable V.coming board.now part.now }
            ensures { HasRun C.history C.space (RunsIn C.opening C.hart_count C.is_local C.ahead_by) V.coming board.entry.now part.entry.now part.exit.now }
        { run_part(rt, board, gate, pace, part) },
    );
}

/// Turns of the harts' seats, and evictions beside them.
pub(crate) fn run_all<
    C: Core + Send,
    V: Evictions + Send + Drop,
    R: Threads + Wait + Sync,
    G: Gate + Sync,
>(
    rt: &R,
    board: &Board<C>,
    gate: &G,
    pace: &Pace,
    seats: Vec<Seat<C, C::Local>>,
    last: Seat<C, C::Local>,
    evict: V,
    mut parts: Vec<Part<C, C::Local, V>>,
) -> (Vec<Seat<C, C::Local>>, Seat<C, C::Local>, V)
    requires room { (parts.items ≡ []) × (2 ≤ vec_capacity parts) }
    requires parts { CanRun C.history C.space (RunsIn C.opening C.hart_count C.is_local C.ahead_by) C.hart_count C.evictable V.coming board.now (Harts seats)
        × CanRun C.history C.space (RunsIn C.opening C.hart_count C.is_local C.ahead_by) C.hart_count C.evictable V.coming board.now (Evictor last evict) }
    ensures { HasRun C.history C.space (RunsIn C.opening C.hart_count C.is_local C.ahead_by) V.coming board.now (Harts seats) (Harts result.0)
        × HasRun C.history C.space (RunsIn C.opening C.hart_count C.is_local C.ahead_by) V.coming board.now (Evictor last evict)
        (Evictor result.1 result.2) }
{
    parts.push_reserved(Part::Harts(seats));
    parts.push_reserved(Part::Evictor(last, evict));
    run_parts(rt, board, gate, pace, parts.as_mut_slice());
    let (last, evict) = pop_evictor(&mut parts);
    let seats = pop_harts(&mut parts);
    (seats, last, evict)
}

/// Takes the last part, which is the seat for evictions.
fn pop_evictor<C, L: Drop, V: Drop>(parts: &mut Vec<Part<C, L, V>>) -> (Seat<C, L>, V)
    requires { EndsIn IsEvictor parts.old.items }
    ensures { parts.old.items ≡ parts.new.items ++ Evictor result.0 result.1 ∷ [] }
{
    let Some(Part::Evictor(seat, evict)) = parts.pop() else {
        unreachable!()
    };
    (seat, evict)
}

/// Takes the last part, which are the harts' seats.
fn pop_harts<C, L: Drop, V: Drop>(parts: &mut Vec<Part<C, L, V>>) -> Vec<Seat<C, L>>
    requires { EndsIn IsHarts parts.old.items }
    ensures { parts.old.items ≡ parts.new.items ++ Harts result ∷ [] }
{
    let Some(Part::Harts(seats)) = parts.pop() else {
        unreachable!()
    };
    seats
}
