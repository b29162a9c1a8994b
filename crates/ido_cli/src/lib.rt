//! The program: what its words and its input are answered.
#![tactic(auto)]

mod answer;
mod compiled_image;
mod durable;
mod image;
mod input;
pub mod laws;
mod list;
mod live;
mod load;
mod make;
mod object;
mod order;
mod play;
mod recover;
mod refusal;
mod regions;
mod report;
mod said;
mod scheme;
mod seeded;
mod source;
mod sweep;
mod table;
mod top;
mod upgrade;

pub use compiled_image::{Image, KeptLives, read_image};
pub use top::{alone, ido};
