//! Fields of files, both ways: numbers, words and counted bytes, each read with the first fault and its place.
#![tactic(auto)]

pub mod error;
pub mod reading;
pub mod writing;
