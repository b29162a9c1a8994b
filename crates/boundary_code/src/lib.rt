//! The code of boundaries: what a thread's log is given so that recovery may resume after them.
#![tactic(auto)]

mod code;
pub mod laws;
mod written;

pub use code::{boundary, boundary_list};
pub use written::Written;
