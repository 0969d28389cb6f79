//! The code points of a text that an edit can have changed.

/// The code points that are compared, where an edit is prepared: from number `before` of the old
/// text, at which part number `first` begins, to number `end`.
#[derive(Clone, Copy)]
pub(crate) struct Span {
    pub first: usize,
    pub before: u64,
    pub end: u64,
}
