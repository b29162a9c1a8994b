//! The words of the command line: which command they are, with which numbers, and for which scheme of logging.
#![tactic(auto)]

pub mod command;
pub mod crashes;
pub mod scheme;
