//! Durable words of any origin that have the shape of what a crash leaves, and runs that begin with them: nothing is computed here.
#![tactic(auto)]

pub mod laws;
