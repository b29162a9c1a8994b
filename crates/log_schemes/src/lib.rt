//! What a log is: where it stands in memory, what its point says, and as a scheme of logging how large it is, which slots of a bank keep the locks held
//! and the registers, and how these are read back. A scheme that is added is a log more here, with its facts; nothing else asks which log it is.
#![tactic(auto)]

pub mod addresses;
pub mod keeping;
pub mod laws;
pub mod locals;
pub mod log;
pub mod point;
pub mod size;
