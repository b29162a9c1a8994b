//! The typing of a tree: its names resolved, its kinds fixed, and the rules of names and kinds held.
#![tactic(auto)]

mod assignment;
mod expression;
mod faults;
mod globals;
mod item;
pub mod laws;
mod length;
mod meaning;
mod names;
mod program;
mod scope;
mod statement;
mod text;

pub use program::type_tree;
