//! Benchmarks: events of a machine, the front of the compiler, its analyses, and turns of harts at a board.
//!
//! Each prints what it has made, and how long that took on standard error. To measure: `cd crates/benchmarks && rt run`. The whole check compares
//! what is printed, and measures nothing.
#![tactic(auto)]

mod boards;
mod front;
mod graphs;
mod lines;
mod machine;
mod running;

use anyhow::Error;

fn main(rt: HostRuntime) -> Result<(), Error> {
    machine::measure(&rt)?;
    front::measure(&rt)?;
    graphs::measure(&rt)?;
    boards::measure(&rt, 1)?;
    boards::measure(&rt, 64)
}
