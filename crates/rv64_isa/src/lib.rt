//! The instructions of RV64IM, CBO.CLEAN, FENCE and ECALL: their types, their words both ways, and what each does to registers and pc.
#![tactic(auto)]

pub mod field;
pub mod instr;
pub mod object;
mod table;
pub mod word;
