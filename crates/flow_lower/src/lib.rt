//! Lowers a flat form to its flow graph: one node for each step of the source.
#![tactic(auto)]

mod counts;
mod expressions;
mod lowering;
mod nodes;
mod table;

pub use lowering::lower;
