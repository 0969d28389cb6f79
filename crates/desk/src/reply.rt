//! The members that replies to several ops share.

use enc_names::Encoding;
use std::marker::Model;

/// The text of a reply. Contracts see its UTF-8 bytes.
#[derive(Drop)]
pub struct ReplyText {
    text: String,
}

impl Model for ReplyText {
    ghost use Rattle.std.specs.Prelude.{List, ℕ, string_bytes};

    ghost Value = { List ℕ };

    ghost view = { λ s. string_bytes s.text };
}

impl ReplyText {
    ghost use Rattle.std.specs.Prelude.{◌≡◌, string_bytes};

    /// The same text, without a copy.
    pub fn new(text: String) -> ReplyText
        ensures { result ≡ string_bytes text }
    {
        ReplyText { text }
    }

    /// The text.
    pub fn as_str(&self) -> &str
        ensures { result.now ≡ self.now }
    {
        self.text.as_str()
    }
}

/// A list in a reply (of bytes, places or lines), in its order. Contracts see the list.
#[derive(Drop)]
pub struct ReplyList<T: Drop> {
    items: Vec<T>,
}

impl<T: Drop> Model for ReplyList<T> {
    ghost use Rattle.std.specs.Prelude.{List};

    ghost Value = { List T };

    ghost view = { λ s. s.items.items };
}

impl<T: Drop> ReplyList<T> {
    ghost use Rattle.std.specs.Prelude.{◌≡◌};

    /// The same items, without a copy.
    pub fn new(items: Vec<T>) -> ReplyList<T>
        ensures { result ≡ items.items }
    {
        ReplyList { items }
    }

    /// The items.
    pub fn as_slice(&self) -> &[T]
        ensures { result.now ≡ self.now }
    {
        self.items.as_slice()
    }
}

/// The reply to an open or a splice.
#[derive(Clone, Copy)]
pub struct EditedReply {
    /// The number of bytes of the document's byte order mark.
    pub bom: u64,
    /// The effective encoding.
    pub encoding: Encoding,
    /// The document's revision after the command.
    pub rev: u64,
}

/// The reply with bytes: those of a document, or of its text in another encoding.
#[derive(Drop)]
pub struct BytesReply {
    /// The document's revision.
    pub rev: u64,
    /// The bytes asked for.
    pub bytes: ReplyList<u8>,
}
