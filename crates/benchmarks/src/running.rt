//! Seats of harts, each in a thread of its own.
ghost use Rattle.std.specs.Prelude.{◌≡◌, ◌<◌, ◌≤◌, [], All};
ghost use Rattle.hart_board.specs.BoardRule.{numbers_from};
ghost use Rattle.hart_board.specs.CoreTurns.{IsPlayed, RunsIn};
ghost use Rattle.hart_board.specs.Seats.{IsSeatOf, number, numbers_of, opening_core, rules_of, seats_of, seen};
ghost use Rattle.benchmarks.specs.HartSeats.{IsHartSeat};
ghost use Rattle.benchmarks.specs.WholeRuns.{HasRun};

use hart_board::board::Board;
use hart_board::seat::{Seat, Turn};
use machine_events::machine::Core;
use std::sync::Wait;
use std::thread::{Threads, for_each_mut};

/// Turns of a seat, until it has nothing more to do.
fn take_turns<C: Core, R: Wait>(rt: &R, board: &Board<C>, seat: &mut Seat<C, C::Local>, most: u64)
    requires some { 0 < most }
    requires seat { IsSeatOf C.history C.space (RunsIn C.opening C.hart_count C.is_local C.ahead_by) board.now seat.old }
    requires hart { number seat.old < C.hart_count (opening_core board.now) }
    ensures { IsSeatOf C.history C.space (RunsIn C.opening C.hart_count C.is_local C.ahead_by) board.now seat.new × (number seat.new ≡ number seat.old) }
{
    for _ in 1..u64::MAX {
        if let Turn::Over = board.turn(rt, seat, most) {
            return;
        }
    }
}

/// Turns of a seat that has a hart, each of at least one event, until it has nothing more to do.
fn take_hart_turns<C: Core, R: Wait>(
    rt: &R,
    board: &Board<C>,
    seat: &mut Seat<C, C::Local>,
    most: u64,
)
    requires { IsHartSeat C.history C.space (RunsIn C.opening C.hart_count C.is_local C.ahead_by) C.hart_count board.now seat.old }
    ensures { IsSeatOf C.history C.space (RunsIn C.opening C.hart_count C.is_local C.ahead_by) board.now seat.new × (number seat.new ≡ number seat.old) }
{
    take_turns(rt, board, seat, most.max(1));
}

/// Turns of all seats.
fn run_harts<C: Core + Send, R: Threads + Wait + Sync>(
    rt: &R,
    board: &Board<C>,
    seats: &mut [Seat<C, C::Local>],
    most: u64,
)
    requires seats { All (IsHartSeat C.history C.space (RunsIn C.opening C.hart_count C.is_local C.ahead_by) C.hart_count board.now) seats.old }
    ensures seats { All (IsSeatOf C.history C.space (RunsIn C.opening C.hart_count C.is_local C.ahead_by) board.now) seats.new }
    ensures numbers { numbers_of seats.new ≡ numbers_of seats.old }
{
    let count = seats.len();
    if count == 0 {
        return;
    }
    for_each_mut(
        rt,
        seats,
        count,
        &|_, seat: &mut Seat<C, C::Local>|
            requires { IsHartSeat C.history C.space (RunsIn C.opening C.hart_count C.is_local C.ahead_by) C.hart_count board.now seat.now }
            ensures { IsSeatOf C.history C.space (RunsIn C.opening C.hart_count C.is_local C.ahead_by) board.entry.now seat.exit.now
                × (number seat.exit.now ≡ number seat.entry.now) }
        { take_hart_turns(rt, board, seat, most) },
    );
}

/// Turns of all seats, and the end of the board: the core, with so many events of each seat in the order of their numbers.
pub(crate) fn run<C: Core + Send, R: Threads + Wait + Sync>(
    rt: &R,
    board: Board<C>,
    mut seats: Vec<Seat<C, C::Local>>,
    most: u64,
) -> (C, Vec<u64>)
    requires seats { All (λ s. IsSeatOf C.history C.space (RunsIn C.opening C.hart_count C.is_local C.ahead_by) board s × (seen s ≡ [])) seats.items }
    requires numbers { numbers_of seats.items ≡ numbers_from 0 (seats_of board) }
    requires harts { seats_of board ≡ C.hart_count (opening_core board) }
    ensures { HasRun (rules_of C.behaviour C.opening C.history C.hart_count board)
        (IsPlayed C.opening C.history C.hart_count C.space C.evictable (opening_core board)) (seats_of board) result.0 result.1.items }
{
    run_harts(rt, &board, seats.as_mut_slice(), most);
    board.into_core(seats)
}
