//! A hart that runs a thread's code steps in lockstep with the thread's flow graph: from the mark of one node to that of the next, whatever
//! others do.
//!
//! It knows a thread's code by `IsThreadCode` alone, and looks at no instruction. A thread's hart stands at its node's code, at its
//! mark, or in the fragment after it.
#![tactic(auto)]

pub mod laws;
