//! The faults by which a trace ends before its reader does.

/// The reason why a trace ended before its reader did. The lines before were played.
#[derive(Clone, Copy, PartialEq, Eq, Debug)]
pub enum TraceFault {
    /// The line of this number, counted from 1, isn't skipped and has no event.
    BadLine(u64),
    /// A read failed.
    Read,
    /// A write failed.
    Write,
    /// The reader was read 2^32 times without an end.
    TooManyReads,
    /// An allocation failed, for a line or for its bytes.
    OutOfMemory,
}

/// The reason why a trace can't continue with a line.
#[derive(Clone, Copy, PartialEq, Eq, Debug)]
pub(super) enum LineFault {
    /// The line isn't skipped, and has no event.
    Bad,
    /// A write failed.
    Write,
    /// An allocation failed.
    OutOfMemory,
}
