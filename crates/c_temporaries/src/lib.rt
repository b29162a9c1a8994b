//! Whether the expressions of a flat form can be evaluated in the temporaries that there are.
#![tactic(auto)]

mod temporaries;

pub use temporaries::{TemporariesError, check};
