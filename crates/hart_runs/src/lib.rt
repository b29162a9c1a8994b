//! What a hart does in the middle of a run of its thread's code, event by event: laws over any program, hart, marks and world.
//!
//! It knows the machine and the notion of a run, and nothing of a source or of how code is made. A crate above has for each hart, at
//! each moment, a run that it stands on and an environment that memory agrees with.
#![tactic(auto)]

pub mod laws;
