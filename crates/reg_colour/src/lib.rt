//! Registers for locals: a linear scan over the intervals of nodes that they take, and a check of such registers.
#![tactic(auto)]

pub mod checking;
pub mod colouring;
mod intervals;
mod scan;

pub use checking::{ColourError, check_colours};
pub use colouring::{ColourRefusal, colour};
