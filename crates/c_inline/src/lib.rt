//! Calls replaced by the bodies of their functions, with fresh locals. Calls that lead back are found first
//! (`rank`, `recursion`), then threads that cost too much (`weigh`), and only then is the flat form made (`build`).
#![tactic(auto)]

mod build;
mod calls;
mod copy;
pub mod inline;
pub mod laws;
mod rank;
mod recursion;
mod shift;
mod weigh;
mod weight;
