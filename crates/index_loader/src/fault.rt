//! The reasons why an index file, or the file of exceptions, could not be read.
ghost use Rattle.std.specs.Prelude.{◌≡◌};

use std::alloc::AllocError;

/// The reason why a line, or the file as a whole, is refused. If a line has several causes, the
/// first in this order is named.
#[derive(Clone, Copy, PartialEq, Eq, Debug)]
pub enum IndexCause {
    /// The first field isn't a decimal number.
    BadPointer,
    /// The second field is absent, or isn't `0x` and a scalar value in hexadecimal digits.
    BadCodePoint,
    /// The pointer is above the greatest of the file's kind.
    PointerTooLarge,
    /// The ranges of gb18030 can't have this row. In line 0, they lack one of the rows that they
    /// need.
    BadRanges,
    /// A line above has the same pointer.
    DuplicatePointer,
    /// An allocation failed.
    OutOfMemory,
}

/// The first fault of an index file.
#[derive(Clone, Copy, PartialEq, Eq, Debug)]
pub struct IndexFault {
    /// The number of the faulty line, from 1; 0 for the file as a whole and for memory.
    pub line: u64,
    /// The reason why it is refused.
    pub cause: IndexCause,
}

impl From<AllocError> for IndexFault {
    ghost use Rattle.index_loader.specs.declared.fault.IndexCause.TheVariants.{OutOfMemory};

    ghost from_gives = { λ _ fault. fault ≡ record { line = 0; cause = OutOfMemory } };

    fn from(_: AllocError) -> IndexFault {
        IndexFault {
            line: 0,
            cause: IndexCause::OutOfMemory,
        }
    }
}

/// The reason why a line of the exceptions, or the whole file, is refused. If a line has several
/// causes, the first in this order is named.
#[derive(Clone, Copy, PartialEq, Eq, Debug)]
pub enum ExceptionCause {
    /// The first field isn't `0x` and a scalar value in hexadecimal digits.
    BadCodePoint,
    /// The second field is missing, or isn't four hexadecimal digits of two gb18030 bytes.
    BadBytes,
    /// A line above has the same code point.
    DuplicateCodePoint,
    /// An allocation failed.
    OutOfMemory,
}

/// The first fault of a file of exceptions.
#[derive(Clone, Copy, PartialEq, Eq, Debug)]
pub struct ExceptionFault {
    /// The number of the faulty line, from 1; 0 for memory.
    pub line: u64,
    /// The reason why it is refused.
    pub cause: ExceptionCause,
}

impl From<AllocError> for ExceptionFault {
    ghost use Rattle.index_loader.specs.declared.fault.ExceptionCause.TheVariants.{OutOfMemory};

    ghost from_gives = { λ _ fault. fault ≡ record { line = 0; cause = OutOfMemory } };

    fn from(_: AllocError) -> ExceptionFault {
        ExceptionFault {
            line: 0,
            cause: ExceptionCause::OutOfMemory,
        }
    }
}
