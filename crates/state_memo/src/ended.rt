//! Items as a piece keeps them.
use iso2022jp::OutputState;

/// An item of a piece, without its code points, which are in the piece's text.
#[derive(Clone, Copy, PartialEq, Eq, Debug)]
pub struct Ended {
    /// The number of its code points.
    pub scalars: u8,
    /// The item's end in bytes, counted from the piece's start; negative if it ends before the
    /// piece.
    pub end: i64,
    /// Whether it is an error.
    pub error: bool,
    /// The output state after the byte that gave it.
    pub output: OutputState,
}
