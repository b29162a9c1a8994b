//! Where variables and locals are.
use crate::home::Home;

/// Where the variables and a thread's locals are, by their numbers.
#[derive(Clone, Copy)]
pub struct Frame<'a> {
    /// The address of each variable's first element.
    pub addresses: &'a [u32],
    /// Where each local stands.
    pub locals: &'a [Home],
}
