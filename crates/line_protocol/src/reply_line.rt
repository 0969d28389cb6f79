//! Reply lines: an object of JSON and a line end.

mod digits;
mod lists;
mod members;
mod reasons;
mod sent_members;
mod short_text;

use crate::request::Refusal;
pub(crate) use digits::Digits;
pub(crate) use lists::{Entry, list_line};
pub(crate) use members::{Content, encoding_name, put_near, put_pair, short_line};
pub(crate) use reasons::Reason;
pub(crate) use sent_members::{Item, send_list, sent_line, serialized_line};
pub use short_text::ShortText;
use std::marker::Model;

/// One reply on a line of its own, with its line end. A reply without texts of a document and
/// without lists is stored inline and takes no memory. Contracts see its bytes.
#[derive(Drop)]
pub struct ReplyLine {
    storage: Storage,
}

/// The storage of a reply line's bytes.
#[derive(Drop)]
enum Storage {
    /// The bytes are in the value itself.
    Inline(ShortText),
    /// The bytes are in memory of their own.
    Allocated(Vec<u8>),
}

impl Model for ReplyLine {
    ghost use Rattle.std.specs.Prelude.{List, ℕ};
    ghost use Rattle.line_protocol.specs.Writing.{bytes_of};

    ghost Value = { List ℕ };

    ghost view = { λ reply. bytes_of reply.storage };
}

impl ReplyLine {
    ghost use Rattle.std.specs.Prelude.{◌≡◌, ◌≤◌, length};
    ghost use Rattle.line_protocol.specs.{Replies.refusal_text, Replies.memory_text, Inline.inline_limit};

    /// The bytes of the line, the line end included.
    pub fn bytes(&self) -> &[u8]
        ensures { result.now ≡ self.now }
    {
        match &self.storage {
            Storage::Inline(text) => text.as_slice(),
            Storage::Allocated(bytes) => bytes.as_slice(),
        }
    }

    /// The line with this text.
    pub(crate) fn inline(text: ShortText) -> ReplyLine
        ensures { result ≡ text }
    {
        ReplyLine {
            storage: Storage::Inline(text),
        }
    }

    /// The line with these bytes.
    pub(crate) fn allocated(bytes: Vec<u8>) -> ReplyLine
        ensures { result ≡ bytes.items }
    {
        ReplyLine {
            storage: Storage::Allocated(bytes),
        }
    }

    /// Writes the line that reports a refusal (`text`). It fits in a line without an allocation
    /// (`inline`).
    pub fn refused(refusal: Refusal) -> ReplyLine
        ensures text { result ≡ refusal_text refusal }
        ensures inline { length result ≤ inline_limit }
    {
        ReplyLine::inline(Reason::of_line(refusal).line())
    }

    /// Writes the line that reports that memory ran out (`text`). It names no request, and fits in
    /// a line without an allocation (`inline`).
    pub fn out_of_memory() -> ReplyLine
        ensures text { result ≡ memory_text }
        ensures inline { length result ≤ inline_limit }
    {
        ReplyLine::inline(Reason::OUT_OF_MEMORY.line())
    }
}
