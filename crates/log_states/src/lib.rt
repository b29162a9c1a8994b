//! What a thread's log holds at each moment of a boundary, between boundaries and after a crash: laws that know no instruction.
//! All that they know is what a boundary does to memory, in order (`boundary_effects`), and the machine's events.
#![tactic(auto)]

pub mod laws;
