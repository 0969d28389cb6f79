//! The reasons why a call on a document is refused.

use std::alloc::AllocError;

/// The reason why a call on a document is refused.
#[derive(Clone, Copy, PartialEq, Eq, Debug)]
pub enum DocFault {
    /// An index file of the declared encoding isn't loaded.
    NoIndex,
    /// A place past the end, or a range whose start is after its end.
    OutOfRange,
    /// The document would have more than `DOCUMENT_LIMIT` bytes.
    TooLarge,
    /// The new text wouldn't be the old text with the range replaced.
    NotKept,
    /// An allocation failed.
    OutOfMemory,
}

impl From<AllocError> for DocFault {
    ghost use Rattle.std.specs.Prelude.{◌≡◌};
    ghost use Rattle.piece_rope.specs.declared.fault.DocFault.TheVariants.{OutOfMemory};

    ghost from_gives = { λ _ fault. fault ≡ OutOfMemory };

    fn from(_: AllocError) -> DocFault {
        DocFault::OutOfMemory
    }
}
