//! What a boundary says of the write that comes next.

/// What a boundary says of the write that comes next, where each write of a section has a record of its own. Elsewhere it says nothing.
#[derive(Clone, Copy, Debug, PartialEq, Eq, Drop)]
pub struct Written {
    /// How many bytes the store has that follows the boundary: 1, 2, 4 or 8. None where no store follows.
    pub bytes: Option<u8>,
    /// The boundary opens a section.
    pub opens: bool,
}

impl Written {
    /// No write comes, and no section is opened.
    pub const NOTHING: Written = Written {
        bytes: None,
        opens: false,
    };
}
