//! Freedom from deadlock of compiled programs whose sources keep the order of locks: nothing is computed here.
#![tactic(auto)]

pub mod laws;
