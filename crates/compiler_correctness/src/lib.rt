//! What a compiled program does in a machine, in the words of those who read it: events, schedules of the source, printed variables.
//!
//! It speaks of every system and every list of events: steps of all harts, evictions and crashes in any order, crashes in recovery
//! among them, and events that no machine has.
#![tactic(auto)]

pub mod laws;
