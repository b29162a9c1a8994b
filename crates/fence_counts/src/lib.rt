//! How many fences a hart finishes, beside the boundaries that it passes: nothing is computed here.
#![tactic(auto)]

pub mod laws;
