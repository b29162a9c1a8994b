//! The facts on which resumption rests, of each hart of a compiled program, after whatever events, in the machine's words: nothing is computed here.
#![tactic(auto)]

pub mod laws;
