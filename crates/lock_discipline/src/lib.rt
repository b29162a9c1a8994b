//! The lock discipline: the first fault of a flat form, or the locks that are held before each step.
#![tactic(auto)]

mod error;
mod held;
pub mod laws;
mod set;
mod uses;
mod walk;

pub use error::LockError;
pub use held::{Held, check, mask_of};
