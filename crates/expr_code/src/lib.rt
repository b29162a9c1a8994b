//! The code of an expression: instructions that compute its value into a register.
//!
//! Locals stand in registers, variables in memory. The code writes no register but the one that is asked for and the
//! temporaries, stores nothing, and goes only forward.
#![tactic(auto)]

mod branches;
mod conditions;
mod elements;
mod evaluation;
mod frame;
pub mod home;
mod operand;
mod operators;
mod selection;
mod temporaries;

pub use frame::Frame;
pub use home::Home;
pub use operand::TestCode;
pub use selection::{
    select, select_converted, select_element_address, select_test, select_variable_address,
};
