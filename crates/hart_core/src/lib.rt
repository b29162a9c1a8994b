//! One step of a hart: the effect of an instruction, and what it does to registers, memory and locks.
//! Nothing here takes memory but the making of a program.
#![tactic(auto)]

mod access;
mod calls;
pub mod effects;
pub mod hart;
pub mod local;
pub mod program;
pub mod rows;
mod signs;
pub mod step;
