//! What a crash leaves, as bytes, both ways.
#![tactic(auto)]

pub mod reading;
pub mod state;
pub mod version;
pub mod writing;
