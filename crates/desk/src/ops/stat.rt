//! The op `stat`.

use crate::question::{Fault, Global, Labels, OpenDocument, Question, Reply};
use enc_names::Encoding;
use position_map::line_count;

/// Returns how long a document and its text are.
#[derive(Clone, Copy)]
pub struct Stat<'a> {
    /// The document's name.
    pub doc: &'a str,
}

/// The reply to `stat`. What the bytes of a document can give fits in 32 bits (`Doc::law_bounds`).
#[derive(Clone, Copy)]
pub struct StatReply {
    /// The document's revision.
    pub rev: u64,
    /// The encoding named by the label of `open`.
    pub given: Encoding,
    /// The effective encoding.
    pub encoding: Encoding,
    /// Length of the document's BOM in bytes.
    pub bom: u64,
    /// Number of bytes in the document.
    pub bytes: u32,
    /// Number of errors.
    pub errors: u32,
    /// Number of lines in the text.
    pub lines: u32,
    /// Length of the text in bytes of UTF-8.
    pub utf8: u32,
    /// Length of the text in code units of UTF-16.
    pub utf16: u32,
    /// Length of the text in code points.
    pub utf32: u32,
}

impl Question for Stat<'_> {
    ghost use Rattle.desk.specs.Commands.{Stat};

    ghost asked = { λ _. Stat };

    fn ask(&self, _: Global, _: &Labels, opened: &OpenDocument<'_>) -> Result<Reply, Fault> {
        let document = &opened.document;
        document.law_bounds();
        let lengths = document.lengths();
        let lines = line_count(document);
        Ok(Reply::Stat(StatReply {
            rev: opened.revision,
            given: document.given(),
            encoding: document.encoding(),
            bom: document.bom_len(),
            bytes: lengths.bytes as u32,
            errors: lengths.errors as u32,
            lines: lines as u32,
            utf8: lengths.utf8 as u32,
            utf16: lengths.utf16 as u32,
            utf32: lengths.scalars as u32,
        }))
    }
}
