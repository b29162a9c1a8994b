//! Schemes of logging, by their names.

/// A scheme by which a compiled program logs.
#[derive(Clone, Copy, Debug, PartialEq, Eq, Drop)]
pub enum SchemeName {
    /// `ido`: a record for each region of a section.
    Ido,
    /// `justdo`: a record for each write of a section.
    Justdo,
}
