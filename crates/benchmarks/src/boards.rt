//! Turns of four harts at a board, each in a thread of its own, where an event touches eight lines of memory.
//!
//! It makes turns of one event, then turns of 64, and prints what each hart has made.
use crate::lines::Lines;
use crate::running::run;
use anyhow::Error;
use hart_board::board::Board;
use std::alloc::Global;
use std::rt::Clock;
use std::sync::Wait;
use std::thread::Threads;
use std::time::Instant;

const HARTS: u32 = 4;

/// Events of each hart.
const EVENTS: u32 = 300_000;

/// Turns of at most so many events.
pub(crate) fn measure<R: Threads + Wait + Sync + Clock + Print + Eprint + Alloc<A = Global>>(
    rt: &R,
    most: u64,
) -> Result<(), Error> {
    let alloc = rt.alloc();
    let all = HARTS * EVENTS;
    let core = Lines::new(alloc, all)?;
    let start = Instant::now(rt)?;
    let (board, seats) = Board::new(alloc, core, HARTS, u64::from(EVENTS), u64::from(all))?;
    let (core, counts) = run(rt, board, seats, most);
    let time = start.elapsed(rt)?;
    eprintln!(rt; "{most}: {} ns an event", time.as_nanos() / u128::from(all))?;
    let touched = core.lines[0];
    println!(rt; "{most}: {counts:?}, {touched} in each line")?;
    Ok(())
}
