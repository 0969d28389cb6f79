//! What refuses a conversion before its first read.

/// Why a conversion isn't started: nothing was read, and nothing written.
#[derive(Clone, Copy, PartialEq, Eq, Debug)]
pub enum Refusal {
    /// An index file of the encoding that is read is missing.
    SourceIndex,
    /// An index file of the encoding that is written is missing.
    TargetIndex,
    /// The encoding that is to be written has no encoder: it is replacement.
    NoEncoder,
    /// An allocation failed.
    OutOfMemory,
}
