//! The reasons why units can't be converted.

/// The reason why units can't be converted to UTF-8. The first that applies is reported.
#[derive(Clone, Copy, PartialEq, Eq, Debug)]
pub enum ToUtf8Fault {
    /// The index of the first surrogate that is in no pair (Unicode, chapter 3, D75).
    LoneSurrogate(usize),
    /// The bytes that the whole text needs, if there is room for fewer.
    NeedsRoom(usize),
}
