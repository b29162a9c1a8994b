//! Whole numbers of C: nine kinds, their conversions and their operators.
//!
//! A [`Value`] is a number with the [`Kind`] that holds it. Every call takes machine integers, gives
//! what C11 says, and is defined for every operand: results wrap, a quotient by 0 has all bits set,
//! a remainder by 0 is the dividend, and a shift's count is taken modulo the width. No call takes
//! memory.
#![tactic(auto)]

mod arithmetic;
mod kinds;
mod literals;
mod operators;
mod values;

pub use arithmetic::{binary, binary_of_numbers, unary, unary_of_number};
pub use kinds::{Kind, common, promote};
pub use literals::{Base, Suffix, literal, literal_kind};
pub use operators::{Binary, Unary};
pub use values::{Value, convert, register_form, residue};
