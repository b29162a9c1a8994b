//! Compiled programs as bytes, both ways.
#![tactic(auto)]

mod fields;
mod limits;
pub mod reading;
pub mod writing;
