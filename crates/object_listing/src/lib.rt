//! The listing of an object: a line for each word of its code, as assemblers write it.
#![tactic(auto)]

mod instruction;
pub mod listing;
mod mnemonic;
