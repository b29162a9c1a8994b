//! The source's own run: what each step of a thread does, without a graph, registers or a log. After `start` no call takes
//! memory.
#![tactic(auto)]

mod answers;
pub mod assignment;
mod code;
pub mod evaluation;
pub mod formed;
pub mod laws;
pub mod locks;
pub mod number;
mod state;
mod thread;
pub mod variables;

pub use answers::{Refused, RefusedKind, Stepped};
pub use state::SourceState;
