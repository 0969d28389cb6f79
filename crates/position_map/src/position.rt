//! Positions in a text.

/// A line and a character on it (LSP 3.17, "Position").
#[derive(Clone, Copy, PartialEq, Eq, Debug)]
pub struct Position {
    /// The line's number, counted from 0.
    pub line: u64,
    /// The units between the line's start and the position.
    pub character: u64,
}

/// The text from one position to another (LSP 3.17, "Range").
#[derive(Clone, Copy, PartialEq, Eq, Debug)]
pub struct Range {
    /// The start of the range.
    pub start: Position,
    /// The end of the range.
    pub end: Position,
}
