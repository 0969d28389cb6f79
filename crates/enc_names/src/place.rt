//! Places in a document.

/// The bytes `from..to` of a document, counted from its first byte: where an item of the decoded
/// text comes from. It may be empty.
#[derive(Clone, Copy, PartialEq, Eq, Debug)]
pub struct Place {
    /// The first byte's index.
    pub from: u64,
    /// The index after the last byte.
    pub to: u64,
}
