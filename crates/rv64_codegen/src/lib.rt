//! The code of threads: what the nodes of a flow graph do, in the instructions of a machine.
#![tactic(auto)]

mod actions;
mod emission;
mod evaluations;
mod guards;
mod initial;
pub mod laws;
mod numbers;
mod plan;
mod registers;
mod targets;
mod tests_of_conditions;
mod thread;

pub use emission::emit;
pub use evaluations::push_evaluation;
pub use plan::Plan;
pub use tests_of_conditions::push_test;
