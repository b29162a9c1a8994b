//! Objects of code with labels.
#![tactic(auto)]

pub mod link;
