//! Registers of locals.

/// Of each thread the registers of its locals, in the order of their numbers. Registers are counted from 0.
#[derive(Drop)]
pub struct Colours {
    pub threads: Vec<Vec<u8>>,
}
