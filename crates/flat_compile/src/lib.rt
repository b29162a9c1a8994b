//! The last part of the compiler: an accepted flat form to its object, which a machine resumes and doesn't undo.
#![tactic(auto)]

pub mod compile;
mod knowns;
pub mod resumes;

pub use compile::{Translated, translate};
