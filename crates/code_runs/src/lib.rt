//! Runs of a thread's code, apart from memory and locks: where they lead, what registers hold, and what is seen of them from outside.
#![tactic(auto)]

pub mod laws;
