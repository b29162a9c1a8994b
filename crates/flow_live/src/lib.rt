//! Which locals are live at which node: backward passes over the nodes, until none adds a local.
#![tactic(auto)]

mod liveness;
mod passes;
mod reading;

pub use liveness::live;
