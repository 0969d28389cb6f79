//! The lengths of documents.
ghost use Rattle.std.specs.Prelude.{◌≡◌, ◌+◌};
ghost use Rattle.state_memo.specs.Sums.{joined};
ghost use Rattle.piece_rope.specs.{Entry.sums_of, Sizes.CanJoin};

use crate::pieces::Pieces;
use state_memo::{Outcome, Sum};
use sum_tree::Summary;

/// The lengths of a document and its text.
#[derive(Clone, Copy, PartialEq, Eq, Debug)]
pub struct Lengths {
    /// Bytes of the document.
    pub bytes: u64,
    /// Code points of the text.
    pub scalars: u64,
    /// The text's code units in UTF-16.
    pub utf16: u64,
    /// The text's bytes in UTF-8.
    pub utf8: u64,
    /// The errors in the document.
    pub errors: u64,
    /// The lines of the text (LSP 3.17, "Text Documents"): one more than it has line ends.
    pub lines: u64,
}

/// The numbers of all pieces and of the end after them.
pub(crate) fn whole_sum(pieces: &Pieces, tail: &Outcome) -> Sum
    requires few { CanJoin pieces.now.items }
    requires tail { tail.now.sum.bytes ≡ 0 }
    ensures { result ≡ joined (sums_of pieces.now.items) tail.now.sum }
{
    pieces.total().join(tail.sum())
}
