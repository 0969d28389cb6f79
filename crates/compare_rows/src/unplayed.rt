//! The reasons why a row can't be played.

use codec::CodecFault;
use index_files::EarlyEnd;
use std::alloc::AllocError;

/// The reason why a row can't be played. It is copied, so nothing has to be dropped when it is
/// passed on.
#[derive(Clone, Copy)]
pub enum Unplayed {
    /// The row isn't written as rows are.
    Malformed,
    /// Memory ran out.
    OutOfMemory,
}

impl Unplayed {
    /// The same as why the program ends.
    pub fn failure(self) -> EarlyEnd {
        match self {
            Unplayed::Malformed => EarlyEnd::Mistake("a row that isn't written as rows are"),
            Unplayed::OutOfMemory => EarlyEnd::OutOfMemory,
        }
    }
}

impl From<AllocError> for Unplayed {
    fn from(_: AllocError) -> Unplayed {
        Unplayed::OutOfMemory
    }
}

impl From<CodecFault> for Unplayed {
    fn from(fault: CodecFault) -> Unplayed {
        match fault {
            CodecFault::OutOfMemory => Unplayed::OutOfMemory,
            // (a decoder was made, and mode fatal has its own way)
            CodecFault::NoIndex | CodecFault::Malformed(_) => Unplayed::Malformed,
        }
    }
}
