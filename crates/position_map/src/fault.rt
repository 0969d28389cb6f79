//! The reasons why a position, an offset or a place is refused.

/// The reason why a position, an offset or a place is refused.
#[derive(Clone, Copy, PartialEq, Eq, Debug)]
pub enum PosFault {
    /// Past the end.
    OutOfRange,
    /// Inside a code point.
    SplitsCharacter,
}
