//! The order of locks: whether each thread of a flat form takes a lock only while all that it holds are below it.
#![tactic(auto)]

mod below;
mod error;
pub mod laws;
mod order;
mod walk;

pub use error::OrderError;
pub use order::ordered;
