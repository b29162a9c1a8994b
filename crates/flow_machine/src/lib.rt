//! Threads on their way through a flow graph: what each step does, without registers or a log. It steps in lockstep with the source.
//! After `start` no call takes memory.
#![tactic(auto)]

mod graph_thread;
pub mod laws;
mod state;

pub use state::FlowState;
