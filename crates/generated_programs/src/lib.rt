//! That the sources which two numbers give are accepted, and that their threads take locks in order.
#![tactic(auto)]

pub mod laws;
