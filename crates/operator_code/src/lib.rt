//! Instructions for constants, conversions and operators: straight-line code that computes one register.
//!
//! A value of C stands in a register in its register form: its number modulo 2^64, but an `unsigned int` is
//! sign-extended from bit 31. Each call gives at most two instructions, which write no register but the one named.
//! That one may be among those that are read.
#![tactic(auto)]

mod binary_operators;
mod branches;
pub mod constant;
mod conversions;
mod immediates;
pub mod instructions;
mod operation;
mod sequences;
mod unary_operators;

pub use binary_operators::{binary, flag};
pub use branches::{Test, comparison, nonzero};
pub use conversions::{convert, copy, keeps_form};
pub use immediates::{ImmediateForm, with_constant};
pub use operation::BinaryOperation;
pub use sequences::Sequence;
pub use unary_operators::{truth, unary};
