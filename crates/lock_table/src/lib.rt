//! Who holds the locks of a machine.
#![tactic(auto)]

mod table;

pub use table::LockTable;
