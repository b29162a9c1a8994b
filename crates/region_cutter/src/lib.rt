//! Where threads can be resumed: few boundaries, after each lock, before each unlock and before stores, so that what is run
//! again reads nothing that it has overwritten; or one before each write, where a section logs each by itself.
#![tactic(auto)]

mod cleaning;
mod covered;
mod cutting;
mod elements;
mod fewest_cuts;
pub mod laws;
mod local;
mod marks;
mod placing;
mod records;
mod region_limits;
mod regions;
mod search;
mod start;
mod straight;
mod trying;

pub use cleaning::cleaned_later;
pub use cutting::cut;
pub use elements::write_elements;
pub use fewest_cuts::fewest;
pub use records::cut_each_write;
pub use region_limits::limits;
pub use regions::is_idempotent;
pub use straight::{Stretch, stretches};
