//! The greatest lengths of a document and its text.
ghost use Rattle.std.specs.Prelude.{◌≤◌, length};

use crate::doc::Doc;
use state_memo::law_items_are_at_most_bytes;

impl Doc<'_> {
    ghost use Rattle.piece_rope.specs.{Bounds.HasFew, Edits.document_limit};

    /// States that the document's bytes are within the limit (`bytes`). Its numbers are within what
    /// so many bytes can give (`text`). The call does nothing.
    pub fn law_bounds(&self)
        ensures bytes { length self.now.bytes ≤ document_limit }
        ensures text { HasFew self.now }
    {
        let _pieces = &self.pieces;
        law_items_are_at_most_bytes();
    }
}
