//! What a crash costs at most, and how soon all goes on: bounds on compiled programs, whatever happens to them.
#![tactic(auto)]

pub mod laws;
