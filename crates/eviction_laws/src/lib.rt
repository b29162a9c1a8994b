//! What evictions don't change: laws of the machine's definitions alone, over any program and any world.
#![tactic(auto)]

pub mod laws;
