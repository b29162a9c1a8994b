//! Compiled programs are resumed, not undone: at each moment a machine that runs them simulates an abstract run, which says what durable
//! memory holds of the source's variables while threads run regions, lose power and run them again.
#![tactic(auto)]

pub mod laws;
