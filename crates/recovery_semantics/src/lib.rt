//! What durable memory holds of a source's variables while threads run regions, lose power and run them again: laws that know no
//! machine, no code and no log.
//!
//! A crate above is to show that what its machine does is a step of this (`ConfigStep`), and has the laws.
#![tactic(auto)]

pub mod laws;
