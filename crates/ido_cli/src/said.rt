//! What the program says.

/// A status, and the bytes to be written.
#[derive(Drop)]
pub struct Said {
    pub status: u8,
    pub output: Vec<u8>,
}
