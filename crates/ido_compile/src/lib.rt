//! The compiler: the checks of a source text, and the object of one that is accepted.
#![tactic(auto)]

pub mod compiler;
pub mod error;
pub mod forms;
pub mod laws;

pub use compiler::{Compiled, checked, compile, flatten, front};
pub use error::CompileError;
