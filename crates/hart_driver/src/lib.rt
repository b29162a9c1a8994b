//! Workers take turns at one core, each in a thread of its own, until each of them has a stop. What their threads leave, the
//! caller goes on with.
#![tactic(auto)]

pub mod drive;
pub mod finishing;
mod pace;
pub mod report;
pub mod running;
pub mod start;
pub mod stop;
pub mod sweep;
