//! The analysis of a flat form: what the checks of its locks, registers and temporaries find out about it, once for all who go on from it.
#![tactic(auto)]

mod analyses;
pub mod laws;

pub use analyses::{Analysis, analyse};
