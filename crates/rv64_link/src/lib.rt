//! Code with labels linked to an object: labels become addresses, and branches that lead far away jumps.
#![tactic(auto)]

mod item;
mod labels;
pub mod link;
mod thread;
