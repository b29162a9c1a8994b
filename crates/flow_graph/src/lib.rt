//! The flow graph of a flat form: one node for each step of the source, and what is said of paths through it.
#![tactic(auto)]

pub mod colours;
pub mod cuts;
pub mod graph;
pub mod laws;
pub mod live_sets;
pub mod local_set;
