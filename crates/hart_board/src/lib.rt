//! Harts take turns at one core, in the order of tickets. Of their turns there is one journal, which no value holds; each seat
//! knows a beginning of it.
#![tactic(auto)]

pub mod board;
pub mod closing;
pub mod core_turn;
pub mod journal;
pub mod meeting;
pub mod opening;
pub mod rule;
pub mod seat;
pub mod turns;
pub mod views;
