//! The source language: what was read, and what the later phases make of it.
#![tactic(auto)]

pub mod expr;
pub mod flat;
pub mod hold;
pub mod language;
pub mod lock_names;
pub mod price;
pub mod program;
pub mod refusal;
pub mod rule;
pub mod shapes;
pub mod token;
pub mod tree;
