//! The answer of a kernel whose output is too short.

/// The output is too short and nothing was written: the whole result has this many elements.
#[derive(Clone, Copy, PartialEq, Eq, Debug)]
pub struct NeedsRoom(pub usize);
