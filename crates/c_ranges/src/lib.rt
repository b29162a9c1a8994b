//! The ranges of expressions: an interval that holds every value of an expression, and the check
//! that each index of a program names an element of its array and that no reference is null where
//! its element is named.
//!
//! The check alone takes memory, for the places of references that may be null.
#![tactic(auto)]

mod checking;
mod expression;
mod indexes;
mod interval;
pub mod known;
pub mod laws;
mod nulls;
mod operators;

pub use checking::{RangeError, check};
pub use expression::range;
pub use indexes::IndexError;
pub use interval::Interval;
pub use laws::{indexes_name_elements, ranges_hold};
