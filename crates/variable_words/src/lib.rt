//! The variables of a source in the words of a machine: laws that join what happens to words to what happens to elements.
#![tactic(auto)]

pub mod laws;
pub mod places;
