//! Recovery after a crash. A hart whose durable point isn't 0 takes the locks of its record, waits until no hart
//! takes any, and resumes at its point, with the registers of its bank. Nothing here takes memory.
#![tactic(auto)]

mod barrier;
mod record;
mod step;

pub use record::phase_after_crash;
pub use step::{phase_step, would_wait};
