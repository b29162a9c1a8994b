//! Tests of the top call: reads and writes that fail in turn, an input at its limit, and runs on threads that wait for each other.
//! They stand in a crate of their own, so that `ido_cli` is not proved twice.
#![tactic(auto)]

#[cfg(test)]
mod commands;
