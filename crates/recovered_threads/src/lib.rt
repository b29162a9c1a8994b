//! What the records of all threads' logs say of the kept state, and that recovery takes each thread's locks without
//! waiting and resumes it where its record says.
//!
//! It knows no instruction and no region: only what boundaries record, what a thread's code is, what recovery's steps do, and the
//! lock discipline. The kept state is any orderly state of the graph.
#![tactic(auto)]

pub mod laws;
