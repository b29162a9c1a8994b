//! Whether locals are assigned before they are read: laws of accepted texts alone.
#![tactic(auto)]

pub mod laws;
