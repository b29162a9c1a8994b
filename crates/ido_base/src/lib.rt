//! What every layer speaks of: places in a text, locations and shapes of variables, holders of locks, and limits. Its `specs/` has the
//! histories of words and where variables stand in memory.
#![tactic(auto)]

pub mod laws;
pub mod limits;
pub mod location;
pub mod locks;
pub mod memory;
pub mod place;
