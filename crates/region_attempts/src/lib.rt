//! Attempts at regions: what they read, where they end and what they leave to be cleaned, by cuts and the flow graph alone.
//!
//! A crate above is to show that its machine begins no node's code before the boundary before it is kept (`RespectsBoundaries`), and
//! has the laws.
#![tactic(auto)]

pub mod laws;
