//! Where the elements of the variables stand in memory, the bytes that they begin with, and which part each
//! register has in a thread's code. Every layer that speaks of them reads them here.
#![tactic(auto)]

pub mod contents;
pub mod roles;
pub mod variables;
