//! Whether cuts are idempotent: whether no region overwrites what it has read, and boundaries stand where they must.
#![tactic(auto)]

mod boundaries;
mod checking;
mod conflicts;
mod error;
mod exposure;
mod labels;
mod locations;
mod marks;
mod paths;

pub use checking::check;
pub use error::{CheckError, Idempotent, LabelError, Least};
pub use labels::check_labels;
