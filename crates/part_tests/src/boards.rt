//! Calls of a board, with answers that were followed by hand, and two seats beside each other.
ghost use Rattle.std.specs.Prelude.{◌≡◌, ◌<◌, ◌≤◌, [], All};
ghost use Rattle.std.specs.Vec.{vec_capacity, vec_len};
ghost use Rattle.hart_board.specs.BoardRule.{numbers_from};
ghost use Rattle.hart_board.specs.CoreTurns.{RunsIn};
ghost use Rattle.hart_board.specs.Seats.{IsSeatOf, number, numbers_of, opening_core, seats_of, seen};
ghost use Rattle.hart_driver.specs.links.Parts.{IsHartSeat};
ghost use mathlib.Core.List.{IsPrefix};

use crate::counter::Counter;
use crate::watched::{Watch, Watched};
use hart_board::board::Board;
use hart_board::seat::{Seat, TryTurn, Turn};
use machine_events::event::{Event, Reply};
use machine_events::machine::Core;
use std::alloc::Global;
use std::process::Abort;
use std::sync::{Mutex, Wait};
use std::test::Fail;
use std::thread::{Threads, for_each_mut};

/// The seats of a board that has two.
fn two_seats<C: Core>(
    board: &Board<C>,
    mut seats: Vec<Seat<C, C::Local>>,
) -> (Seat<C, C::Local>, Seat<C, C::Local>)
    requires seats { All (IsSeatOf C.history C.space (RunsIn C.opening C.hart_count C.is_local C.ahead_by) board.now) seats.items }
    requires numbers { numbers_of seats.items ≡ numbers_from 0 2 }
    ensures first { IsSeatOf C.history C.space (RunsIn C.opening C.hart_count C.is_local C.ahead_by) board.now result.0 × (number result.0 ≡ 0) }
    ensures second { IsSeatOf C.history C.space (RunsIn C.opening C.hart_count C.is_local C.ahead_by) board.now result.1 × (number result.1 ≡ 1) }
{
    let Some(second) = seats.pop() else {
        unreachable!()
    };
    let Some(first) = seats.pop() else {
        unreachable!()
    };
    (first, second)
}

/// The seats of a new board that has two.
fn new_seats<C: Core>(
    board: &Board<C>,
    seats: Vec<Seat<C, C::Local>>,
) -> (Seat<C, C::Local>, Seat<C, C::Local>)
    requires seats { All (λ s. IsSeatOf C.history C.space (RunsIn C.opening C.hart_count C.is_local C.ahead_by) board.now s × (seen s ≡ [])) seats.items }
    requires numbers { numbers_of seats.items ≡ numbers_from 0 2 }
    ensures first { IsSeatOf C.history C.space (RunsIn C.opening C.hart_count C.is_local C.ahead_by) board.now result.0 × (number result.0 ≡ 0) }
    ensures second { IsSeatOf C.history C.space (RunsIn C.opening C.hart_count C.is_local C.ahead_by) board.now result.1 × (number result.1 ≡ 1) }
{
    two_seats(board, seats)
}

/// The core of a board with two seats, and the number of events of each.
fn end<C: Core>(
    board: Board<C>,
    first: Seat<C, C::Local>,
    second: Seat<C, C::Local>,
    mut seats: Vec<Seat<C, C::Local>>,
) -> (C, Vec<u64>)
    requires first { IsSeatOf C.history C.space (RunsIn C.opening C.hart_count C.is_local C.ahead_by) board first × (number first ≡ 0) }
    requires second { IsSeatOf C.history C.space (RunsIn C.opening C.hart_count C.is_local C.ahead_by) board second × (number second ≡ 1) }
    requires two { seats_of board ≡ 2 }
    requires room { (vec_len seats ≡ 0) × (2 ≤ vec_capacity seats) }
    ensures { vec_len result.1 ≡ 2 }
{
    seats.push_reserved(first);
    seats.push_reserved(second);
    board.into_core(seats)
}

/// A hart of six steps, and a seat that evicts: two steps, an eviction, the four steps that are left, and nothing.
#[test]
fn turns(rt: HostRuntime) -> Result<(), Fail> {
    let room = Vec::with_capacity(rt.alloc(), 2)?;
    let core = Counter::new(rt.alloc(), 20)?;
    let (board, seats) = Board::new(rt.alloc(), core, 2, 8, 20)?;
    let (mut hart, mut evictor) = new_seats(&board, seats);
    let two = board.try_turn(&mut hart, 2);
    let evicted = board.evict_turn(&rt, &mut evictor, 0, 255);
    let note = board.note(&mut hart);
    board.learn(&mut evictor, note);
    let four = board.turn(&rt, &mut hart, 64);
    let over = board.try_turn(&mut hart, 64);
    let (core, counts) = end(board, hart, evictor, room);
    assert_eq!(rt;
        two,
        TryTurn::Did {
            events: 2,
            last: Reply::Moved
        }
    );
    assert_eq!(rt;
        evicted,
        Turn::Did {
            events: 1,
            last: Reply::Device
        }
    );
    assert_eq!(rt;
        four,
        Turn::Did {
            events: 4,
            last: Reply::Moved
        }
    );
    assert_eq!(rt; over, TryTurn::Over);
    assert_eq!(rt; counts.as_slice(), [6, 1].as_slice());
    assert_eq!(rt; core.journal.len(), 7);
    Ok(())
}

/// A hart of six steps, and a seat that evicts: the hart's second turn waits for the first one of the other seat.
#[test]
fn first_turns(rt: HostRuntime) -> Result<(), Fail> {
    let room = Vec::with_capacity(rt.alloc(), 2)?;
    let core = Counter::new(rt.alloc(), 20)?;
    let (board, seats) = Board::new(rt.alloc(), core, 2, 8, 20)?;
    let (mut hart, mut evictor) = new_seats(&board, seats);
    let one = board.try_turn(&mut hart, 1);
    let early = board.try_turn(&mut hart, 1);
    let evicted = board.evict_turn(&rt, &mut evictor, 0, 255);
    let five = board.try_turn(&mut hart, 64);
    let (core, counts) = end(board, hart, evictor, room);
    assert_eq!(rt;
        one,
        TryTurn::Did {
            events: 1,
            last: Reply::Moved
        }
    );
    assert_eq!(rt;
        early,
        TryTurn::Later {
            ticket: 2,
            serving: 1
        }
    );
    assert_eq!(rt;
        evicted,
        Turn::Did {
            events: 1,
            last: Reply::Device
        }
    );
    assert_eq!(rt;
        five,
        TryTurn::Did {
            events: 5,
            last: Reply::Moved
        }
    );
    assert_eq!(rt; counts.as_slice(), [6, 1].as_slice());
    assert_eq!(rt; core.journal.len(), 7);
    Ok(())
}

/// What runs ahead of a hart is adopted at once, three steps that come before one that isn't local; and the turn goes on from there.
#[test]
fn adopts(rt: HostRuntime) -> Result<(), Fail> {
    let watch = Watch::new(true);
    adopts_what_ran(&rt, &watch)
}

/// A turn of a hart that runs ahead.
fn adopts_what_ran<R: Wait + Abort + Alloc<A = Global>>(rt: &R, watch: &Watch) -> Result<(), Fail> {
    let room = Vec::with_capacity(rt.alloc(), 2)?;
    let core = Watched::new(rt.alloc(), 1_000, watch)?;
    let (board, seats) = Board::new(rt.alloc(), core, 2, 500, 1_000)?;
    let (mut first, second) = new_seats(&board, seats);
    let turn = board.turn(rt, &mut first, 64);
    let (core, counts) = end(board, first, second, room);
    assert_eq!(rt;
        turn,
        Turn::Did {
            events: 64,
            last: Reply::Moved
        }
    );
    assert_eq!(rt; watch.adoptions(), 1);
    assert_eq!(rt; watch.adopted(), 3);
    assert_eq!(rt; counts.as_slice(), [64, 0].as_slice());
    assert_eq!(rt; core.journal.as_slice(), [Event::Step(0); 64].as_slice());
    Ok(())
}

/// Events of a turn at most: one more than the first steps of a hart that are local.
const MOST: u64 = 4;

/// What two tries at a turn have come to.
#[derive(Clone, Copy, Debug, Drop, PartialEq)]
struct Tries {
    first: TryTurn,
    second: TryTurn,
    /// How often hart 1 was asked for one more step from the end of the first try to that of the second.
    asked: u64,
}

/// What two threads have found.
#[derive(Drop)]
struct Found {
    turn: Mutex<Option<Turn>>,
    tries: Mutex<Option<Tries>>,
}

/// Tries twice while another seat is in its turn, and then lets that turn go on.
fn try_twice<C: Core>(watch: &Watch, board: &Board<C>, seat: &mut Seat<C, C::Local>) -> Tries
    requires seat { IsSeatOf C.history C.space (RunsIn C.opening C.hart_count C.is_local C.ahead_by) board.now seat.old }
    requires hart { number seat.old < C.hart_count (opening_core board.now) }
    ensures seat { IsSeatOf C.history C.space (RunsIn C.opening C.hart_count C.is_local C.ahead_by) board.now seat.new × (number seat.new ≡ number seat.old) }
{
    watch.await_turn();
    let first = board.try_turn(seat, MOST);
    let asked = watch.asked();
    let second = board.try_turn(seat, MOST);
    let asked = watch.asked().saturating_sub(asked);
    watch.let_on();
    Tries {
        first,
        second,
        asked,
    }
}

/// A turn of the first seat, or two tries of another one.
fn meet<C: Core, R: Wait>(
    rt: &R,
    watch: &Watch,
    board: &Board<C>,
    found: &Found,
    seat: &mut Seat<C, C::Local>,
)
    requires seat { IsSeatOf C.history C.space (RunsIn C.opening C.hart_count C.is_local C.ahead_by) board.now seat.old }
    requires hart { number seat.old < C.hart_count (opening_core board.now) }
    ensures { IsSeatOf C.history C.space (RunsIn C.opening C.hart_count C.is_local C.ahead_by) board.now seat.new × (number seat.new ≡ number seat.old) }
{
    if seat.number() == 0 {
        let turn = board.turn(rt, seat, MOST);
        *found.turn.lock(rt) = Some(turn);
    } else {
        let tries = try_twice(watch, board, seat);
        *found.tries.lock(rt) = Some(tries);
    }
}

/// That for a seat that has a hart.
fn meet_hart<C: Core, R: Wait>(
    rt: &R,
    watch: &Watch,
    board: &Board<C>,
    found: &Found,
    seat: &mut Seat<C, C::Local>,
)
    requires { IsHartSeat C.history C.space (RunsIn C.opening C.hart_count C.is_local C.ahead_by) C.hart_count board.now seat.old }
    ensures { IsSeatOf C.history C.space (RunsIn C.opening C.hart_count C.is_local C.ahead_by) board.now seat.new × (number seat.new ≡ number seat.old) }
{
    meet(rt, watch, board, found, seat);
}

/// A turn of the first seat, and beside it two tries of the second one.
fn meet_in_a_turn<C: Core + Send, R: Threads + Wait + Sync>(
    rt: &R,
    watch: &Watch,
    board: &Board<C>,
    found: &Found,
    seats: &mut [Seat<C, C::Local>],
)
    requires seats { All (IsHartSeat C.history C.space (RunsIn C.opening C.hart_count C.is_local C.ahead_by) C.hart_count board.now) seats.old }
    ensures seats { All (IsSeatOf C.history C.space (RunsIn C.opening C.hart_count C.is_local C.ahead_by) board.now) seats.new }
    ensures numbers { numbers_of seats.new ≡ numbers_of seats.old }
{
    for_each_mut(
        rt,
        seats,
        2,
        &|_, seat: &mut Seat<C, C::Local>|
            requires { IsHartSeat C.history C.space (RunsIn C.opening C.hart_count C.is_local C.ahead_by) C.hart_count board.now seat.now }
            ensures { IsSeatOf C.history C.space (RunsIn C.opening C.hart_count C.is_local C.ahead_by) board.entry.now seat.exit.now
                × (number seat.exit.now ≡ number seat.entry.now) }
        { meet_hart(rt, watch, board, found, seat) },
    );
}

/// The two seats after they have met.
fn meet_all<C: Core + Send, R: Threads + Wait + Sync>(
    rt: &R,
    watch: &Watch,
    board: &Board<C>,
    found: &Found,
    mut seats: Vec<Seat<C, C::Local>>,
) -> Vec<Seat<C, C::Local>>
    requires seats { All (λ s. IsSeatOf C.history C.space (RunsIn C.opening C.hart_count C.is_local C.ahead_by) board.now s × (seen s ≡ [])) seats.items }
    requires numbers { numbers_of seats.items ≡ numbers_from 0 2 }
    requires harts { C.hart_count (opening_core board.now) ≡ 2 }
    ensures seats { All (IsSeatOf C.history C.space (RunsIn C.opening C.hart_count C.is_local C.ahead_by) board.now) result.items }
    ensures numbers { numbers_of result.items ≡ numbers_from 0 2 }
{
    meet_in_a_turn(rt, watch, board, found, seats.as_mut_slice());
    seats
}

/// The second seat has seen then what the first one has seen.
fn tell<C: Core>(board: &Board<C>, first: &mut Seat<C, C::Local>, second: &mut Seat<C, C::Local>)
    requires first { IsSeatOf C.history C.space (RunsIn C.opening C.hart_count C.is_local C.ahead_by) board.now first.old }
    requires second { IsSeatOf C.history C.space (RunsIn C.opening C.hart_count C.is_local C.ahead_by) board.now second.old }
    ensures first { IsSeatOf C.history C.space (RunsIn C.opening C.hart_count C.is_local C.ahead_by) board.now first.new
        × (number first.new ≡ number first.old) }
    ensures second { IsSeatOf C.history C.space (RunsIn C.opening C.hart_count C.is_local C.ahead_by) board.now second.new
        × (number second.new ≡ number second.old) }
    ensures told { IsPrefix (seen first.old) (seen second.new) }
{
    let note = board.note(first);
    board.learn(second, note);
}

/// Two seats beside each other: one of them tries while the other is in its turn, and comes later.
#[test]
fn later(rt: HostRuntime) -> Result<(), Fail> {
    let watch = Watch::new(false);
    comes_later(&rt, &watch)
}

/// A turn of one seat that the watch holds up, and the other's tries.
fn comes_later<R: Threads + Wait + Sync + Abort + Alloc<A = Global>>(
    rt: &R,
    watch: &Watch,
) -> Result<(), Fail> {
    let room = Vec::with_capacity(rt.alloc(), 2)?;
    let found = Found {
        turn: Mutex::new(None),
        tries: Mutex::new(None),
    };
    let core = Watched::new(rt.alloc(), 1_000, watch)?;
    let (board, seats) = Board::new(rt.alloc(), core, 2, 500, 1_000)?;
    let seats = meet_all(rt, watch, &board, &found, seats);
    let (mut first, mut second) = two_seats(&board, seats);
    tell(&board, &mut first, &mut second);
    let third = board.try_turn(&mut second, MOST);
    let (core, counts) = end(board, first, second, room);
    let later = TryTurn::Later {
        ticket: 1,
        serving: 0,
    };
    let four = TryTurn::Did {
        events: 4,
        last: Reply::Moved,
    };
    let turn = *found.turn.lock(rt);
    let tries = *found.tries.lock(rt);
    assert_eq!(rt;
        turn,
        Some(Turn::Did {
            events: 4,
            last: Reply::Moved
        })
    );
    assert_eq!(rt;
        tries,
        Some(Tries {
            first: later,
            second: later,
            asked: 1
        })
    );
    assert_eq!(rt; third, four);
    assert_eq!(rt; counts.as_slice(), [4, 4].as_slice());
    let [zero, one] = [Event::Step(0), Event::Step(1)];
    assert_eq!(rt;
        core.journal.as_slice(),
        [zero, zero, zero, zero, one, one, one, one].as_slice()
    );
    Ok(())
}
