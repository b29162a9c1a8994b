//! The reader of the source language: from a text to its tree.
#![tactic(auto)]

mod assignment;
mod block;
mod byte;
mod cursor;
mod expression;
mod full;
mod halt;
mod item;
mod kind;
pub mod laws;
mod nesting;
mod number;
mod parser;
mod prefix;
mod reader;
mod scanner;
mod statement;
mod token;

pub use reader::read;
