//! A machine of several harts that run code of RV64IM over persistent memory: what each event does to it, and what that means for the source whose
//! code it runs.
#![tactic(auto)]

pub mod laws;
pub mod object;
pub mod phase;
