//! What the instructions of RV64IM compute (RISC-V unprivileged ISA, "RV64I Base Integer Instruction Set" and
//! "M" Extension). Numbers have 64 bits; signed ones are in two's complement.
#![tactic(auto)]

mod branches;
mod products;
mod quotients;
mod results;
mod shifts;
mod signs;

pub use branches::taken;
pub use results::alu;
