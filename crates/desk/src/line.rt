//! The start and the end of lines.

/// The start of a line and its end without the line end. Both are in code points from the text's
/// start.
#[derive(Clone, Copy, PartialEq, Eq, Debug)]
pub struct Line {
    /// The code points before the line.
    pub start: u64,
    /// The code points before its end.
    pub end: u64,
}
